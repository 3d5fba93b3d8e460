//! Requests that are withheld.
use crate::lane::Lane;
use ledger_terms::ListOf;

/// A participant is to see the approved request at a place, and has no complete envelope of it.
#[derive(Clone, Copy)]
pub struct Withheld {
    pub participant: Lane,
    pub place: u64,
}

/// Withheld requests in the order of the report.
pub type WithheldList = ListOf<Withheld>;

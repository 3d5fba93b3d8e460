//! Active contracts.
use crate::lane::Lane;
use ledger_terms::ListOf;

/// A contract that is active for a participant, created by the request at a place; its instance as the report words it.
#[derive(Clone, Copy)]
pub struct Active<'t> {
    pub participant: Lane,
    pub place: u64,
    pub instance: &'t str,
}

/// Active contracts in the order of the report.
pub type ActiveList<'t> = ListOf<Active<'t>>;

//! What a caller has to know of a choice.
use ledger_terms::{FieldDecl, Kind};

/// The parameters of a choice, and the kind of its result.
#[derive(Clone, Copy)]
pub(crate) struct Signature<'p> {
    pub(crate) params: &'p [FieldDecl],
    pub(crate) returns: Kind,
}

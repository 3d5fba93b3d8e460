//! Verdicts that are owed.
use canton_model::ViewVerdictList;
use ledger_terms::ListOf;

/// The verdicts that a participant owes to the request at a place.
#[derive(Drop)]
pub struct Owed {
    pub place: u64,
    pub verdicts: ViewVerdictList,
}

/// Owed verdicts in order of place.
pub type OwedList = ListOf<Owed>;

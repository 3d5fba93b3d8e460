//! Outcomes.
use crate::decision::Decision;
use ledger_terms::ListOf;

/// What became of the request at a place.
#[derive(Clone, Copy)]
pub struct Outcome<'t> {
    pub place: u64,
    pub decision: Decision<'t>,
}

/// Outcomes in order of place.
pub type OutcomeList<'t> = ListOf<Outcome<'t>>;

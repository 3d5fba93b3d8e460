//! Requests at a place.
use canton_model::Outcome;
use ledger_terms::ListOf;

/// What a participant knows at a place of a request that it received: what became of it so far, and whether the participant owes verdicts
/// to it, be it decided or not.
#[derive(Clone, Copy)]
pub struct RequestState {
    pub place: u64,
    pub outcome: Outcome,
    pub owes: bool,
}

/// Requests in order of place.
pub type RequestStateList = ListOf<RequestState>;

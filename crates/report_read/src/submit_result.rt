//! What submissions were answered.
use crate::lane::Lane;
use ledger_terms::ListOf;

/// What a submission was answered: its request's place, or the fault for which it was refused.
#[derive(Clone, Copy)]
pub enum Answer<'t> {
    Sent(u64),
    Refused(&'t str),
}

/// A submission of a round with its answer.
#[derive(Clone, Copy)]
pub struct SubmitResult<'t> {
    pub round: u64,
    pub participant: Lane,
    pub command: &'t str,
    pub answer: Answer<'t>,
}

/// Results in the order of the script.
pub type SubmitResultList<'t> = ListOf<SubmitResult<'t>>;

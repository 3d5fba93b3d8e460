//! What a round that has begun is asked.
use ledger_terms::{ParticipantIdList, Submission};

/// What a round that has begun is asked: who is paused in it, whether verdicts are held, and the submissions.
#[derive(Drop)]
pub struct RoundInput<'a> {
    pub paused: &'a ParticipantIdList,
    pub hold_verdicts: bool,
    pub submits: &'a [Submission],
}

//! Rounds.
use ledger_terms::{ListOf, ParticipantIdList, RawRequestList, SubmissionList};

/// A round of a script: how far the time is moved, in microseconds, which participants are paused, whether the mediator holds its
/// verdicts back, what is submitted, in order, which raw requests are handed in, and which participants restart before anything else.
#[derive(Drop)]
pub struct Round {
    pub advance: u64,
    pub paused: ParticipantIdList,
    pub hold_verdicts: bool,
    pub submits: SubmissionList,
    pub raws: RawRequestList,
    pub restarts: ParticipantIdList,
}

/// Rounds in order.
pub type RoundList = ListOf<Round>;

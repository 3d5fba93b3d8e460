//! What a round says.
use ledger_terms::ParticipantIdList;

/// What a round says: its time in microseconds, which participants take no submissions and do no work, and whether verdicts are
/// held.
#[derive(Drop)]
pub struct RoundRules {
    pub time: u64,
    pub paused: ParticipantIdList,
    pub hold_verdicts: bool,
}

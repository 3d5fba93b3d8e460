//! Submissions of clients.

use crate::list::ListOf;
use crate::name::Name;
use crate::participant_id::ParticipantId;
use crate::party_set::PartySet;
use crate::what::What;

/// What a client hands to its participant. `ledger_time` is in microseconds; without one it is the time of the round.
#[derive(Drop)]
pub struct Submission {
    pub participant: ParticipantId,
    pub command: Name,
    pub act_as: PartySet,
    pub ledger_time: Option<u64>,
    pub what: What,
}

/// Submissions, in the order of the script.
pub type SubmissionList = ListOf<Submission>;

//! What a check goes by.
use crate::id_facts::IdFactsList;
use crate::setup::Setup;
use crate::shown::Shown;
use ledger_terms::ParticipantId;

/// What a participant checks a request by: what it is set up with, its own index and the sender's, the time of the request's
/// entry in microseconds, what it is shown, and what it knows of the contracts in that at the request's place.
#[derive(Drop)]
pub struct CheckInput<'s> {
    pub setup: &'s Setup,
    pub me: ParticipantId,
    pub sender: ParticipantId,
    pub time: u64,
    pub shown: Shown,
    pub facts: IdFactsList,
}

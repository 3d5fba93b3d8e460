//! A request as a client hands it in.
use crate::bytes::Bytes;
use crate::list::ListOf;
use crate::name::Name;
use crate::participant_id::{ParticipantId, ParticipantIdList};
use crate::raw_envelope::RawEnvelopeList;

/// A request that no participant prepared: its sender and command as the client states them, whom it says to ask, and any bytes for
/// the mediator and the recipients.
#[derive(Drop)]
pub struct RawRequest {
    pub participant: ParticipantId,
    pub command: Name,
    pub confirming: ParticipantIdList,
    pub mediator: Bytes,
    pub envelopes: RawEnvelopeList,
}

/// Raw requests, in the order of the script.
pub type RawRequestList = ListOf<RawRequest>;

//! An envelope as a client hands it in.
use crate::bytes::Bytes;
use crate::list::ListOf;
use crate::participant_id::ParticipantId;

/// An envelope of a raw request: to whom it goes, and any bytes.
#[derive(Drop)]
pub struct RawEnvelope {
    pub to: ParticipantId,
    pub bytes: Bytes,
}

/// Envelopes, in the order in which the client lists them.
pub type RawEnvelopeList = ListOf<RawEnvelope>;

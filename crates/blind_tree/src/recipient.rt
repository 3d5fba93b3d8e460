//! Whom a tree is for.
use ledger_terms::{ListOf, ParticipantId};

/// Whom a tree is for.
#[derive(Clone, Copy, PartialEq, Eq)]
pub enum Recipient {
    Participant(ParticipantId),
    Mediator,
}

/// Recipients.
pub type RecipientList = ListOf<Recipient>;

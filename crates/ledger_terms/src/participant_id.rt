//! Which participant.
use crate::exact::Exact;
use crate::list::ListOf;
use std::marker::Model;

/// A participant's index in the topology, which contracts see as that number.
#[derive(Clone, Copy, PartialEq, Eq, PartialOrd, Ord, Hash)]
pub struct ParticipantId(pub u8);

impl Model for ParticipantId {
    ghost use Rattle.std.specs.Prelude.{ℕ};

    ghost Value = { ℕ };

    ghost view = { λ p. p.0 };

    ghost inverse = { λ n. record { 0 = n } };
}

/// Participants.
pub type ParticipantIdList = ListOf<ParticipantId>;

impl Exact for ParticipantId {
    ghost same = { λ a b h. h };
}

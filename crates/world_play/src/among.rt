//! Whether a participant is among others.
ghost use Rattle.std.specs.Prelude.{◌≡◌};
ghost use Rattle.world_model.specs.Places.{has_place};

use ledger_terms::ParticipantId;

/// Whether the participant with the index `at` is among `participants`: those that are paused in a round, or that restart in it.
pub fn is_among(participants: &[ParticipantId], at: usize) -> bool
    ensures { result ≡ has_place participants.now at }
{
    participants
        .iter()
        .any(|participant| at == participant.0 as usize)
}

//! What the log tells of an open request.
ghost use Rattle.std.specs.Prelude.{◌≡◌, true, find, nat_eq, option_copied};
ghost use Rattle.canton_model.specs.Log.{request_at, request_of};
ghost use Rattle.canton_model.specs.Genuine.{IsReading};
ghost use Rattle.world_model.specs.Machine.{Machine, GenuineLog};
ghost use Rattle.world_model.specs.Settled.{is_due};
ghost use Rattle.seq_log.specs.OpenRequests.{is_open};
ghost use Rattle.seq_log.specs.Sequenced.{IsFor};
ghost use Rattle.world_play.specs.Scans.{asked};

use canton_model::{Entry, Message};
use ledger_terms::ParticipantId;
use seq_log::Sequencer;

// The participant with this index among these, None where it isn't there.
fn named(participants: &[ParticipantId], at: usize) -> Option<&ParticipantId>
    ensures { option_copied result ≡ find (nat_eq at) participants.now }
{
    participants
        .iter()
        .find(|participant| at == participant.0 as usize)
}

// The participant with this index, where the entry is a request that asks it.
fn asked(at: usize, entry: &Entry) -> Option<ParticipantId>
    ensures { result ≡ asked at (request_of entry.now.message) }
{
    match &entry.message {
        Message::Request(request) => named(request.confirming.as_slice(), at).copied(),
        _ => None,
    }
}

// The participant with this index, where the request at a place asks it.
fn asked_at(sequencer: &mut Sequencer<'_>, place: u64, at: usize) -> Option<ParticipantId>
    ensures same { sequencer.new ≡ sequencer.old }
    ensures asked { result ≡ asked at (request_at sequencer.old.list place) }
{
    match sequencer.entry(place) {
        Some(slip) => asked(at, slip.entry()),
        None => None,
    }
}

/// Whether the participant with the index `at` owes a response to the open request at `place`: it is asked there, and hasn't responded.
pub fn is_due(sequencer: &mut Sequencer<'_>, place: u64, at: usize) -> bool
    requires { is_open (sequencer.old.topology).params sequencer.old.list place ≡ true }
    ensures same { sequencer.new ≡ sequencer.old }
    ensures due { (m : Machine) → IsReading m.reading → IsFor m sequencer.old → GenuineLog m sequencer.old.list
        → result ≡ is_due m sequencer.old.list at place }
{
    match asked_at(sequencer, place, at) {
        Some(from) => !sequencer.has_response(place, from),
        None => false,
    }
}

//! How a participant sends its responses.
ghost use Rattle.std.specs.Prelude.{◌≡◌, ℕ, length, OnOk};
ghost use Rattle.ledger_model.specs.Terms.{ParticipantId};
ghost use Rattle.world_model.specs.Machine.{Machine};
ghost use Rattle.world_model.specs.Settled.{append_each};
ghost use Rattle.world_model.specs.Turns.{waiting_below};
ghost use Rattle.seq_log.specs.Sequenced.{IsFor};
ghost use Rattle.node_core.specs.Participant.{with_state};
ghost use Rattle.world_play.specs.Parts.{GoesOn, IsParticipant};

use crate::handing_in::hand_in_response;
use node_core::Node;
use seq_log::Sequencer;
use std::alloc::{AllocError, Global};

/// The participant sends all that waits in its outbox, in order of place. A response that stands in the log already, or comes too late, is dropped. After
/// want of memory what wasn't sent waits still.
pub fn send_all(
    alloc: Global,
    node: &mut Node<'_>,
    sequencer: &mut Sequencer<'_>,
) -> Result<(), AllocError>
    ensures on { GoesOn sequencer.old sequencer.new }
    ensures same { node.new ≡ with_state node.old node.new.state }
    ensures items { (node.new.state).items ≡ (node.old.state).items }
    ensures keeps { (m : Machine) (p : ParticipantId) → IsParticipant m p node.old sequencer.old → IsParticipant m p node.new sequencer.new }
    ensures ok { OnOk result ((m : Machine) (now : ℕ) → IsFor m sequencer.old → sequencer.new.list
        ≡ append_each m now sequencer.old.list (waiting_below (node.old.topology).params node.old.state (length (node.old.state).items))) }
{
    'responses: while let Some(response) = node.outbox(alloc)? {
        let request = response.request;
        hand_in_response(sequencer, response)?;
        node.sent(request);
    }
    Ok(())
}

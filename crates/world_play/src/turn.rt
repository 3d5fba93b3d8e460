//! A participant's turn in a pass.
ghost use Rattle.std.specs.Prelude.{◌≡◌, ℕ, OnOk};
ghost use Rattle.ledger_model.specs.Terms.{ParticipantId};
ghost use Rattle.world_model.specs.Machine.{Machine};
ghost use Rattle.world_model.specs.Lawful.{NodeHas};
ghost use Rattle.world_model.specs.Settled.{append_each};
ghost use Rattle.world_model.specs.Turns.{turn_messages};
ghost use Rattle.node_core.specs.OverLog.{state_over};
ghost use Rattle.node_core.specs.Participant.{with_state};
ghost use Rattle.world_play.specs.Parts.{GoesOn, IsParticipant};

use crate::reading::read_to_end;
use crate::sending::send_all;
use crate::validating::validate_all;
use lang_eval::NativeList;
use node_core::Node;
use seq_log::Sequencer;
use std::alloc::{AllocError, Global};

/// The participant reads to the end, finishes its jobs in order of place and sends its responses in order. After want of memory it has done some of that,
/// and a job may be left claimed.
pub fn take_turn<'r>(
    alloc: Global,
    natives: &'r NativeList,
    node: &mut Node<'r>,
    sequencer: &mut Sequencer<'_>,
) -> Result<(), AllocError>
    requires { (m : Machine) × (p : ParticipantId) × IsParticipant m p node.old sequencer.old }
    ensures on { GoesOn sequencer.old sequencer.new }
    ensures same { node.new ≡ with_state node.old node.new.state }
    ensures keeps { (m : Machine) (p : ParticipantId) → IsParticipant m p node.old sequencer.old → IsParticipant m p node.new sequencer.new }
    ensures sends { OnOk result ((m : Machine) (p : ParticipantId) (now : ℕ) → IsParticipant m p node.old sequencer.old
        → sequencer.new.list ≡ append_each m now sequencer.old.list (turn_messages m p sequencer.old.list (state_over sequencer.old.list node.old))) }
    ensures has { OnOk result ((m : Machine) (p : ParticipantId) → IsParticipant m p node.old sequencer.old
        → NodeHas m p sequencer.old.list (state_over sequencer.new.list node.new)) }
{
    read_to_end(node, sequencer)?;
    validate_all(alloc, natives, node)?;
    send_all(alloc, node, sequencer)
}

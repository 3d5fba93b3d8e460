//! What one participant does in an event.
ghost use Rattle.std.specs.Prelude.{◌≡◌, ℕ, List, OnOk};
ghost use Rattle.ledger_terms.specs.declared.topology.Topology.{Topology};
ghost use Rattle.ledger_model.specs.Terms.{ParticipantId};
ghost use Rattle.lang_eval.specs.Found.{Packages};
ghost use Rattle.canton_model.specs.Inbox.{Item};
ghost use Rattle.world_model.specs.Machine.{Machine};
ghost use Rattle.world_model.specs.Mediator.{MediatorState};
ghost use Rattle.world_model.specs.Node.{next_claim};
ghost use Rattle.world_model.specs.Lawful.{Lawful};
ghost use Rattle.world_model.specs.World.{NodeRead, Reply, LoseReply, happens};
ghost use Rattle.seq_log.specs.Sequenced.{Sequenced};
ghost use Rattle.node_core.specs.OverLog.{HasInbox, inbox_over};
ghost use Rattle.node_core.specs.Participant.{reading_of, whole_state, with_state};
ghost use Rattle.node_core.specs.Bases.{AreBases, Bases};
ghost use Rattle.world_play.specs.Moves.{Happens, event_at, validated_if};
ghost use Rattle.world_play.specs.Parts.{GoesOn, IsParticipant};
ghost use Rattle.world_play.specs.Submitting.{AreSetUp};
ghost use Rattle.world_play.specs.Worlds.{AreNodesOf, world_with};

use crate::handing_in::hand_in_response;
use crate::validating::run_job;
use crate::world::NodeList;
use lang_eval::NativeList;
use node_core::Node;
use seq_log::Sequencer;
use std::alloc::{AllocError, Global};

/// One thing that a participant may do.
#[derive(Clone, Copy)]
pub enum NodeMove {
    Read,
    Validate,
    Reply,
    LoseReply,
    Pause(bool),
}

// The participant reads the entry at its cursor, where one stands there.
fn read_next(node: &mut Node<'_>, sequencer: &mut Sequencer<'_>) -> Result<(), AllocError>
    requires { (m : Machine) × (p : ParticipantId) × IsParticipant m p node.old sequencer.old }
    ensures log { sequencer.new ≡ sequencer.old }
    ensures same { OnOk result (node.new ≡ with_state node.old node.new.state) }
    ensures ok { OnOk result ((m : Machine) (p : ParticipantId) → IsParticipant m p node.old sequencer.old
        → Happens m p (NodeRead p) node.old sequencer.old node.new sequencer.old) }
    ensures inbox { OnOk result ((m : Machine) (p : ParticipantId) → IsParticipant m p node.old sequencer.old
        → HasInbox (inbox_over sequencer.old.list node.new) node.new) }
{
    match sequencer.entry(node.cursor()) {
        Some(slip) => node.read(&slip),
        None => Ok(()),
    }
}

// The participant claims the first request that it can, and finishes its job.
fn validate_next<'r>(
    alloc: Global,
    natives: &'r NativeList,
    node: &mut Node<'r>,
) -> Result<(), AllocError>
    ensures same { OnOk result (node.new ≡ with_state node.old node.new.state) }
    ensures items { OnOk result ((node.new.state).items ≡ (node.old.state).items) }
    ensures inbox { OnOk result ((whole : List Item) → HasInbox whole node.old → HasInbox whole node.new) }
    ensures ok { OnOk result ((whole : List Item) → HasInbox whole node.old → whole_state node.new whole
        ≡ validated_if (reading_of node.old) (node.old.topology).params node.old.me (whole_state node.old whole)
        (next_claim (reading_of node.old) (node.old.topology).params node.old.me (whole_state node.old whole))) }
{
    if let Some(job) = node.claim_job(alloc)? {
        let finished = run_job(natives, job)?;
        // nothing was read since the claim, so its request isn't decided
        let _ = node.finish_job(finished);
    }
    Ok(())
}

// The participant sends the head of its outbox.
fn reply(
    alloc: Global,
    node: &mut Node<'_>,
    sequencer: &mut Sequencer<'_>,
) -> Result<(), AllocError>
    ensures on { GoesOn sequencer.old sequencer.new }
    ensures same { node.new ≡ with_state node.old node.new.state }
    ensures ok { OnOk result ((m : Machine) (p : ParticipantId) → IsParticipant m p node.old sequencer.old
        → Happens m p (Reply p) node.old sequencer.old node.new sequencer.new) }
    ensures inbox { OnOk result ((m : Machine) (p : ParticipantId) → IsParticipant m p node.old sequencer.old
        → HasInbox (inbox_over sequencer.new.list node.new) node.new) }
{
    if let Some(response) = node.outbox(alloc)? {
        let request = response.request;
        hand_in_response(sequencer, response)?;
        node.sent(request);
    }
    Ok(())
}

// The head of the participant's outbox is lost.
fn lose_reply(alloc: Global, node: &mut Node<'_>) -> Result<(), AllocError>
    ensures same { node.new ≡ with_state node.old node.new.state }
    ensures ok { OnOk result ((m : Machine) (p : ParticipantId) (log : Sequenced) → IsParticipant m p node.old log
        → Happens m p (LoseReply p) node.old log node.new log) }
    ensures inbox { OnOk result ((m : Machine) (p : ParticipantId) (log : Sequenced) → IsParticipant m p node.old log
        → HasInbox (inbox_over log.list node.new) node.new) }
{
    if let Some(response) = node.outbox(alloc)? {
        node.sent(response.request);
    }
    Ok(())
}

// What a participant does in an event.
fn move_once<'r>(
    alloc: Global,
    natives: &'r NativeList,
    node: &mut Node<'r>,
    sequencer: &mut Sequencer<'_>,
    action: NodeMove,
) -> Result<(), AllocError>
    requires { (m : Machine) × (p : ParticipantId) × IsParticipant m p node.old sequencer.old }
    ensures on { OnOk result (GoesOn sequencer.old sequencer.new) }
    ensures same { OnOk result (node.new ≡ with_state node.old node.new.state) }
    ensures ok { OnOk result ((m : Machine) (p : ParticipantId) → IsParticipant m p node.old sequencer.old
        → Happens m p (event_at action p) node.old sequencer.old node.new sequencer.new) }
    ensures inbox { OnOk result ((m : Machine) (p : ParticipantId) → IsParticipant m p node.old sequencer.old
        → HasInbox (inbox_over sequencer.new.list node.new) node.new) }
{
    match action {
        NodeMove::Read => read_next(node, sequencer),
        NodeMove::Validate => validate_next(alloc, natives, node),
        NodeMove::Reply => reply(alloc, node, sequencer),
        NodeMove::LoseReply => lose_reply(alloc, node),
        NodeMove::Pause(paused) => {
            node.set_paused(paused);
            Ok(())
        }
    }
}

fn move_slice<'r>(
    alloc: Global,
    natives: &'r NativeList,
    nodes: &mut [Node<'r>],
    sequencer: &mut Sequencer<'_>,
    at: usize,
    action: NodeMove,
) -> Result<(), AllocError>
    requires { (m : Machine) × (now : ℕ) × (state : MediatorState) × AreNodesOf m nodes.old sequencer.old
        × Lawful m (world_with now state nodes.old sequencer.old) }
    ensures nodes { OnOk result ((m : Machine) → AreNodesOf m nodes.old sequencer.old → AreNodesOf m nodes.new sequencer.new) }
    ensures set_up { OnOk result ((topology : Topology) (packages : Packages) → AreSetUp topology packages nodes.old
        → AreSetUp topology packages nodes.new) }
    ensures bases { OnOk result ((bases : Bases) → AreBases bases nodes.old
        → AreBases bases nodes.new) }
    ensures ok { OnOk result ((m : Machine) (now : ℕ) (state : MediatorState) → AreNodesOf m nodes.old sequencer.old
        → Lawful m (world_with now state nodes.old sequencer.old)
        → world_with now state nodes.new sequencer.new ≡ happens m (world_with now state nodes.old sequencer.old) (event_at action at)) }
{
    if at < nodes.len() {
        return move_once(alloc, natives, &mut nodes[at], sequencer, action);
    }
    Ok(())
}

/// The participant whose index is `at` does the action: it reads one entry, checks one request, sends or loses one response, or is paused or no longer.
/// Nothing happens where there is no such participant, or it has nothing to do. After want of memory a job may be left claimed.
pub fn move_node<'r>(
    alloc: Global,
    natives: &'r NativeList,
    nodes: &mut NodeList<'r>,
    sequencer: &mut Sequencer<'_>,
    at: usize,
    action: NodeMove,
) -> Result<(), AllocError>
    requires { (m : Machine) × (now : ℕ) × (state : MediatorState) × AreNodesOf m nodes.old.items sequencer.old
        × Lawful m (world_with now state nodes.old.items sequencer.old) }
    ensures nodes { OnOk result ((m : Machine) → AreNodesOf m nodes.old.items sequencer.old → AreNodesOf m nodes.new.items sequencer.new) }
    ensures set_up { OnOk result ((topology : Topology) (packages : Packages) → AreSetUp topology packages nodes.old.items
        → AreSetUp topology packages nodes.new.items) }
    ensures bases { OnOk result ((bases : Bases) → AreBases bases nodes.old.items
        → AreBases bases nodes.new.items) }
    ensures ok { OnOk result ((m : Machine) (now : ℕ) (state : MediatorState) → AreNodesOf m nodes.old.items sequencer.old
        → Lawful m (world_with now state nodes.old.items sequencer.old)
        → world_with now state nodes.new.items sequencer.new
        ≡ happens m (world_with now state nodes.old.items sequencer.old) (event_at action at)) }
{
    move_slice(alloc, natives, nodes.as_mut_slice(), sequencer, at, action)
}

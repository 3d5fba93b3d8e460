//! How participants restart where a round begins.
ghost use Rattle.std.specs.Prelude.{◌≡◌, ◌<◌, ◌≤◌, ◌^◌, ℕ, List, length, OnErr, OnOk};
ghost use Rattle.ledger_terms.specs.declared.topology.Topology.{Topology};
ghost use Rattle.ledger_model.specs.Terms.{ParticipantId};
ghost use Rattle.lang_eval.specs.Found.{Packages};
ghost use Rattle.world_model.specs.Lawful.{Lawful};
ghost use Rattle.world_model.specs.Machine.{Machine};
ghost use Rattle.world_model.specs.Mediator.{MediatorState};
ghost use Rattle.node_core.specs.Bases.{AreBases, Bases};
ghost use Rattle.world_play.specs.Flags.{ArePaused};
ghost use Rattle.world_play.specs.Parts.{IsParticipant};
ghost use Rattle.world_play.specs.Submitting.{AreSetUp};
ghost use Rattle.world_play.specs.Worlds.{AreNodesOf, world_with};
ghost use Rattle.world_play.specs.WorldOf.{IsWorldOf, world_of};
ghost use Rattle.world_restart.specs.Restarting.{AllStay, AreRestarted, IsRestarted, StaysParticipant, bases_after};

use confirm_reply::Setup;
use ledger_terms::{ParticipantId, ParticipantIdList};
use node_core::Node;
use node_restart::restarted;
use seq_log::Sequencer;
use std::alloc::{AllocError, Global};
use world_play::{NodeList, World, is_among, read_to_end};

// The participant reads to the end of the log, and restarts. After want of memory it has read some of it.
fn restart_one<'r>(
    alloc: Global,
    setup: &'r Setup,
    node: &mut Node<'r>,
    sequencer: &mut Sequencer<'_>,
) -> Result<(), AllocError>
    requires hosts { length setup.now.topology.hosts ≤ 255 }
    requires short { length sequencer.old.list < 2 ^ 15 }
    requires setup { (node.old.topology ≡ setup.now.topology) × (node.old.packages ≡ setup.now.checked) }
    requires is { (m : Machine) × (p : ParticipantId) × IsParticipant m p node.old sequencer.old }
    ensures log { sequencer.new ≡ sequencer.old }
    ensures remains { StaysParticipant sequencer.old node.old node.new }
    ensures restarted { OnOk result (IsRestarted sequencer.old.list node.old node.new) }
{
    read_to_end(node, sequencer)?;
    *node = restarted(alloc, setup, node)?;
    Ok(())
}

// Each of `participants` among these nodes, which stand in the order of the topology, reads to the end of the log, and restarts.
fn restart_slice<'r>(
    alloc: Global,
    setup: &'r Setup,
    nodes: &mut [Node<'r>],
    sequencer: &mut Sequencer<'_>,
    participants: &[ParticipantId],
) -> Result<(), AllocError>
    requires hosts { length setup.now.topology.hosts ≤ 255 }
    requires short { length sequencer.old.list < 2 ^ 15 }
    requires set_up { AreSetUp setup.now.topology setup.now.checked nodes.old }
    requires lawful { (m : Machine) × (now : ℕ) × (state : MediatorState) × AreNodesOf m nodes.old sequencer.old
        × Lawful m (world_with now state nodes.old sequencer.old) }
    ensures log { sequencer.new ≡ sequencer.old }
    ensures remain { AllStay sequencer.old nodes.old nodes.new }
    ensures restarted { OnOk result (AreRestarted participants.now sequencer.old.list nodes.old nodes.new) }
{
    let mut at: usize = 0;
    'nodes: for node in nodes.iter_mut() {
        if is_among(participants, at) {
            restart_one(alloc, setup, node, sequencer)?;
        }
        at += 1;
    }
    Ok(())
}

// Each of `participants` among the nodes of this list reads to the end of the log, and restarts.
fn restart_nodes<'r>(
    alloc: Global,
    setup: &'r Setup,
    nodes: &mut NodeList<'r>,
    sequencer: &mut Sequencer<'_>,
    participants: &[ParticipantId],
) -> Result<(), AllocError>
    requires hosts { length setup.now.topology.hosts ≤ 255 }
    requires short { length sequencer.old.list < 2 ^ 15 }
    requires set_up { AreSetUp setup.now.topology setup.now.checked nodes.old.items }
    requires lawful { (m : Machine) × (now : ℕ) × (state : MediatorState) × AreNodesOf m nodes.old.items sequencer.old
        × Lawful m (world_with now state nodes.old.items sequencer.old) }
    ensures log { sequencer.new ≡ sequencer.old }
    ensures remain { AllStay sequencer.old nodes.old.items nodes.new.items }
    ensures restarted { OnOk result (AreRestarted participants.now sequencer.old.list nodes.old.items nodes.new.items) }
{
    restart_slice(alloc, setup, nodes.as_mut_slice(), sequencer, participants)
}

/// Each of these participants, paused or not, reads to the end of the log and is replaced by the one that begins from the bytes of its state, pruned to
/// the base of its inbox. One that is named more than once restarts once. After want of memory some have restarted, and some have read some of the log.
pub fn restart<'r>(
    alloc: Global,
    setup: &'r Setup,
    world: &mut World<'r>,
    participants: &ParticipantIdList,
) -> Result<(), AllocError>
    requires hosts { length setup.now.topology.hosts ≤ 255 }
    requires short { length (world.old.sequencer).list < 2 ^ 15 }
    requires set_up { AreSetUp setup.now.topology setup.now.checked (world.old.nodes).items }
    requires lawful { (m : Machine) × (state : MediatorState) × IsWorldOf m state world.old × Lawful m (world_of state world.old) }
    ensures log { world.new.sequencer ≡ world.old.sequencer }
    ensures now { world.new.now ≡ world.old.now }
    ensures mediator { world.new.mediator ≡ world.old.mediator }
    ensures lawful { (m : Machine) (state : MediatorState) → IsWorldOf m state world.old → Lawful m (world_of state world.old)
        → IsWorldOf m state world.new × Lawful m (world_of state world.new) }
    ensures set_up { (topology : Topology) (packages : Packages) → AreSetUp topology packages (world.old.nodes).items
        → AreSetUp topology packages (world.new.nodes).items }
    ensures paused { (paused : List ParticipantId) → ArePaused paused (world.old.nodes).items → ArePaused paused (world.new.nodes).items }
    ensures restarted { OnOk result (AreRestarted participants.now (world.old.sequencer).list (world.old.nodes).items (world.new.nodes).items) }
    ensures bases { OnOk result ((m : Machine) (state : MediatorState) (bases : Bases) → IsWorldOf m state world.old
        → AreBases bases (world.old.nodes).items
        → AreBases (bases_after m.reading m.params (world.old.sequencer).list participants.now bases) (world.new.nodes).items) }
{
    restart_nodes(
        alloc,
        setup,
        &mut world.nodes,
        &mut world.sequencer,
        participants.as_slice(),
    )
}

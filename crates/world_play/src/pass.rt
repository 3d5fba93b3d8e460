//! A pass over a synchroniser.
ghost use Rattle.std.specs.Prelude.{◌≡◌, ℕ, List, OnOk};
ghost use Rattle.ledger_terms.specs.declared.topology.Topology.{Topology};
ghost use Rattle.lang_eval.specs.Found.{Packages};
ghost use Rattle.world_model.specs.Messages.{Entry};
ghost use Rattle.world_model.specs.Machine.{Machine};
ghost use Rattle.world_model.specs.Mediator.{MediatorState};
ghost use Rattle.world_model.specs.Lawful.{Lawful};
ghost use Rattle.world_model.specs.Settled.{pass};
ghost use Rattle.world_model.specs.Settling.{PassedTo, WorldReady};
ghost use Rattle.node_core.specs.Bases.{AreBases, Bases};
ghost use Rattle.world_play.specs.Parts.{GoesOn};
ghost use Rattle.world_play.specs.Submitting.{AreSetUp};
ghost use Rattle.world_play.specs.Worlds.{AreNodesOf, world_with};
ghost use Rattle.world_play.specs.WorldOf.{IsWorldOf, world_of};

use crate::among::is_among;
use crate::mediating::mediate;
use crate::turn::take_turn;
use crate::world::{NodeList, World};
use lang_eval::NativeList;
use ledger_terms::ParticipantId;
use node_core::Node;
use seq_log::Sequencer;
use std::alloc::{AllocError, Global};

// Each participant that isn't paused has its turn, in order.
fn take_turns_slice<'r>(
    alloc: Global,
    natives: &'r NativeList,
    nodes: &mut [Node<'r>],
    sequencer: &mut Sequencer<'_>,
    paused: &[ParticipantId],
) -> Result<(), AllocError>
    requires { (m : Machine) × (now : ℕ) × (state : MediatorState) × AreNodesOf m nodes.old sequencer.old
        × Lawful m (world_with now state nodes.old sequencer.old) }
    ensures on { GoesOn sequencer.old sequencer.new }
    ensures nodes { (m : Machine) → AreNodesOf m nodes.old sequencer.old → AreNodesOf m nodes.new sequencer.new }
    ensures lawful { (m : Machine) (now : ℕ) (state : MediatorState) → AreNodesOf m nodes.old sequencer.old
        → Lawful m (world_with now state nodes.old sequencer.old) → Lawful m (world_with now state nodes.new sequencer.new) }
    ensures set_up { (topology : Topology) (packages : Packages) → AreSetUp topology packages nodes.old → AreSetUp topology packages nodes.new }
    ensures bases { (bases : Bases) → AreBases bases nodes.old → AreBases bases nodes.new }
    ensures ok { OnOk result ((m : Machine) (now : ℕ) (state : MediatorState) (began : List Entry) → AreNodesOf m nodes.old sequencer.old
        → PassedTo m paused.now began 0 (world_with now state nodes.old sequencer.old)
        → PassedTo m paused.now began m.hosts (world_with now state nodes.new sequencer.new)) }
{
    let mut at: usize = 0;
    'nodes: for node in nodes.iter_mut() {
        if !is_among(paused, at) {
            take_turn(alloc, natives, node, sequencer)?;
        }
        at += 1;
    }
    Ok(())
}

// The same of a list.
fn take_turns<'r>(
    alloc: Global,
    natives: &'r NativeList,
    nodes: &mut NodeList<'r>,
    sequencer: &mut Sequencer<'_>,
    paused: &[ParticipantId],
) -> Result<(), AllocError>
    requires { (m : Machine) × (now : ℕ) × (state : MediatorState) × AreNodesOf m nodes.old.items sequencer.old
        × Lawful m (world_with now state nodes.old.items sequencer.old) }
    ensures on { GoesOn sequencer.old sequencer.new }
    ensures nodes { (m : Machine) → AreNodesOf m nodes.old.items sequencer.old → AreNodesOf m nodes.new.items sequencer.new }
    ensures lawful { (m : Machine) (now : ℕ) (state : MediatorState) → AreNodesOf m nodes.old.items sequencer.old
        → Lawful m (world_with now state nodes.old.items sequencer.old) → Lawful m (world_with now state nodes.new.items sequencer.new) }
    ensures set_up { (topology : Topology) (packages : Packages) → AreSetUp topology packages nodes.old.items → AreSetUp topology packages nodes.new.items }
    ensures bases { (bases : Bases) → AreBases bases nodes.old.items → AreBases bases nodes.new.items }
    ensures ok { OnOk result ((m : Machine) (now : ℕ) (state : MediatorState) (began : List Entry) → AreNodesOf m nodes.old.items sequencer.old
        → PassedTo m paused.now began 0 (world_with now state nodes.old.items sequencer.old)
        → PassedTo m paused.now began m.hosts (world_with now state nodes.new.items sequencer.new)) }
{
    take_turns_slice(alloc, natives, nodes.as_mut_slice(), sequencer, paused)
}

/// Each participant that isn't one of `paused` has its turn, in order, and then the mediator, which hands in no verdicts where `hold_verdicts`. After
/// want of memory the pass was made in part.
pub fn pass<'r>(
    alloc: Global,
    natives: &'r NativeList,
    world: &mut World<'r>,
    paused: &[ParticipantId],
    hold_verdicts: bool,
) -> Result<(), AllocError>
    requires { (m : Machine) × (state : MediatorState) × IsWorldOf m state world.old × Lawful m (world_of state world.old) }
    ensures on { GoesOn world.old.sequencer world.new.sequencer }
    ensures now { world.new.now ≡ world.old.now }
    ensures lawful { (m : Machine) (state : MediatorState) → IsWorldOf m state world.old → Lawful m (world_of state world.old)
        → (after : MediatorState) × IsWorldOf m after world.new × Lawful m (world_of after world.new) }
    ensures set_up { (topology : Topology) (packages : Packages) → AreSetUp topology packages (world.old.nodes).items
        → AreSetUp topology packages (world.new.nodes).items }
    ensures bases { (bases : Bases) → AreBases bases (world.old.nodes).items
        → AreBases bases (world.new.nodes).items }
    ensures ok { OnOk result ((m : Machine) (state : MediatorState) → IsWorldOf m state world.old
        → WorldReady m paused.now (world_of state world.old)
        → (after : MediatorState) × IsWorldOf m after world.new × WorldReady m paused.now (world_of after world.new)
        × ((world.new.sequencer).list ≡ pass m world.old.now paused.now hold_verdicts (world.old.sequencer).list)) }
{
    take_turns(
        alloc,
        natives,
        &mut world.nodes,
        &mut world.sequencer,
        paused,
    )?;
    mediate(&mut world.mediator, &mut world.sequencer, hold_verdicts)
}

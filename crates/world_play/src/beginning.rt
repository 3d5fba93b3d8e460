//! How a round begins.
ghost use Rattle.std.specs.Prelude.{◌≡◌, ◌+◌, ◌≤◌, ◌^◌, ℕ, OnErr, OnOk};
ghost use Rattle.ledger_terms.specs.declared.topology.Topology.{Topology};
ghost use Rattle.lang_eval.specs.Found.{Packages};
ghost use Rattle.world_model.specs.Machine.{Machine};
ghost use Rattle.world_model.specs.Mediator.{MediatorState};
ghost use Rattle.world_model.specs.Lawful.{Lawful};
ghost use Rattle.world_model.specs.Rounds.{Round, ticked};
ghost use Rattle.seq_log.specs.Sequenced.{Sequenced};
ghost use Rattle.node_core.specs.Bases.{AreBases, Bases};
ghost use Rattle.world_play.specs.Flags.{ArePaused};
ghost use Rattle.world_play.specs.Parts.{GoesOn};
ghost use Rattle.world_play.specs.Submitting.{AreSetUp};
ghost use Rattle.world_play.specs.WorldOf.{IsWorldOf, world_of};
ghost use Rattle.world_play.specs.Worlds.{AreNodesOf, world_with};

use crate::among::is_among;
use crate::submitting;
use crate::world::{NodeList, World};
use ledger_terms::{ParticipantId, ParticipantIdList};
use node_core::Node;
use std::alloc::AllocError;

// These participants are paused, and no others.
fn set_paused_slice(nodes: &mut [Node<'_>], paused: &[ParticipantId])
    ensures nodes { (m : Machine) (s : Sequenced) → AreNodesOf m nodes.old s → AreNodesOf m nodes.new s }
    ensures lawful { (m : Machine) (now : ℕ) (state : MediatorState) (s : Sequenced) → Lawful m (world_with now state nodes.old s)
        → Lawful m (world_with now state nodes.new s) }
    ensures set_up { (topology : Topology) (packages : Packages) → AreSetUp topology packages nodes.old → AreSetUp topology packages nodes.new }
    ensures bases { (bases : Bases) → AreBases bases nodes.old → AreBases bases nodes.new }
    ensures paused { ArePaused paused.now nodes.new }
{
    let mut at: usize = 0;
    'nodes: for node in nodes.iter_mut() {
        node.set_paused(is_among(paused, at));
        at += 1;
    }
}

// The same of a list.
fn set_paused(nodes: &mut NodeList<'_>, paused: &[ParticipantId])
    ensures nodes { (m : Machine) (s : Sequenced) → AreNodesOf m nodes.old.items s → AreNodesOf m nodes.new.items s }
    ensures lawful { (m : Machine) (now : ℕ) (state : MediatorState) (s : Sequenced) → Lawful m (world_with now state nodes.old.items s)
        → Lawful m (world_with now state nodes.new.items s) }
    ensures set_up { (topology : Topology) (packages : Packages) → AreSetUp topology packages nodes.old.items → AreSetUp topology packages nodes.new.items }
    ensures bases { (bases : Bases) → AreBases bases nodes.old.items → AreBases bases nodes.new.items }
    ensures paused { ArePaused paused.now nodes.new.items }
{
    set_paused_slice(nodes.as_mut_slice(), paused);
}

/// A round begins: `paused` are the participants that are paused from now on, and no others, and time moves on by `advance` microseconds, of which a Tick
/// tells where they are more than none. After want of memory the participants are paused, and time stands still.
pub fn begin_round(
    world: &mut World<'_>,
    advance: u64,
    paused: &ParticipantIdList,
) -> Result<(), AllocError>
    requires time { world.old.now + advance ≤ 10 ^ 16 }
    requires lawful { (m : Machine) × (state : MediatorState) × IsWorldOf m state world.old × Lawful m (world_of state world.old) }
    ensures on { GoesOn world.old.sequencer world.new.sequencer }
    ensures now { OnOk result (world.new.now ≡ world.old.now + advance) }
    ensures lawful { (m : Machine) (state : MediatorState) → IsWorldOf m state world.old → Lawful m (world_of state world.old)
        → IsWorldOf m state world.new × Lawful m (world_of state world.new) }
    ensures set_up { (topology : Topology) (packages : Packages) → AreSetUp topology packages (world.old.nodes).items
        → AreSetUp topology packages (world.new.nodes).items }
    ensures bases { (bases : Bases) → AreBases bases (world.old.nodes).items
        → AreBases bases (world.new.nodes).items }
    ensures paused { ArePaused paused.now (world.new.nodes).items }
    ensures log { OnOk result ((m : Machine) (state : MediatorState) (round : Round) → IsWorldOf m state world.old → round.advance ≡ advance
        → (world.new.sequencer).list ≡ ticked m (world.old.now + advance) round (world.old.sequencer).list) }
    ensures err { OnErr result ((world.new.now ≡ world.old.now) × (world.new.sequencer ≡ world.old.sequencer)) }
{
    set_paused(&mut world.nodes, paused.as_slice());
    submitting::advance(world, advance)
}

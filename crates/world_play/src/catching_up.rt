//! How all participants read to the end of the log.
ghost use Rattle.std.specs.Prelude.{◌≡◌, ℕ, map, OnOk};
ghost use Rattle.ledger_terms.specs.declared.topology.Topology.{Topology};
ghost use Rattle.lang_eval.specs.Found.{Packages};
ghost use Rattle.world_model.specs.Machine.{Machine};
ghost use Rattle.world_model.specs.Mediator.{MediatorState};
ghost use Rattle.world_model.specs.Lawful.{Lawful};
ghost use Rattle.world_model.specs.Settling.{catch_each, caught_up_world};
ghost use Rattle.node_core.specs.OverLog.{state_over};
ghost use Rattle.node_core.specs.Bases.{AreBases, Bases};
ghost use Rattle.world_play.specs.Submitting.{AreSetUp};
ghost use Rattle.world_play.specs.Worlds.{AreNodesOf, world_with};
ghost use Rattle.world_play.specs.WorldOf.{IsWorldOf, world_of};

use crate::reading::read_to_end;
use crate::world::{NodeList, World};
use node_core::Node;
use seq_log::Sequencer;
use std::alloc::AllocError;

fn read_nodes_slice(nodes: &mut [Node<'_>], sequencer: &mut Sequencer<'_>) -> Result<(), AllocError>
    requires { (m : Machine) × (now : ℕ) × (state : MediatorState) × AreNodesOf m nodes.old sequencer.old
        × Lawful m (world_with now state nodes.old sequencer.old) }
    ensures log { sequencer.new ≡ sequencer.old }
    ensures nodes { (m : Machine) → AreNodesOf m nodes.old sequencer.old → AreNodesOf m nodes.new sequencer.old }
    ensures set_up { (topology : Topology) (packages : Packages) → AreSetUp topology packages nodes.old → AreSetUp topology packages nodes.new }
    ensures bases { (bases : Bases) → AreBases bases nodes.old → AreBases bases nodes.new }
    ensures lawful { (m : Machine) (now : ℕ) (state : MediatorState) → AreNodesOf m nodes.old sequencer.old
        → Lawful m (world_with now state nodes.old sequencer.old) → Lawful m (world_with now state nodes.new sequencer.old) }
    ensures ok { OnOk result ((m : Machine) (now : ℕ) (state : MediatorState) → AreNodesOf m nodes.old sequencer.old
        → Lawful m (world_with now state nodes.old sequencer.old)
        → map (state_over sequencer.old.list) nodes.new ≡ catch_each m sequencer.old.list 0 (map (state_over sequencer.old.list) nodes.old)) }
{
    'nodes: for node in nodes.iter_mut() {
        read_to_end(node, sequencer)?;
    }
    Ok(())
}

fn read_nodes(nodes: &mut NodeList<'_>, sequencer: &mut Sequencer<'_>) -> Result<(), AllocError>
    requires { (m : Machine) × (now : ℕ) × (state : MediatorState) × AreNodesOf m nodes.old.items sequencer.old
        × Lawful m (world_with now state nodes.old.items sequencer.old) }
    ensures log { sequencer.new ≡ sequencer.old }
    ensures nodes { (m : Machine) → AreNodesOf m nodes.old.items sequencer.old → AreNodesOf m nodes.new.items sequencer.old }
    ensures set_up { (topology : Topology) (packages : Packages) → AreSetUp topology packages nodes.old.items → AreSetUp topology packages nodes.new.items }
    ensures bases { (bases : Bases) → AreBases bases nodes.old.items → AreBases bases nodes.new.items }
    ensures lawful { (m : Machine) (now : ℕ) (state : MediatorState) → AreNodesOf m nodes.old.items sequencer.old
        → Lawful m (world_with now state nodes.old.items sequencer.old) → Lawful m (world_with now state nodes.new.items sequencer.old) }
    ensures ok { OnOk result ((m : Machine) (now : ℕ) (state : MediatorState) → AreNodesOf m nodes.old.items sequencer.old
        → Lawful m (world_with now state nodes.old.items sequencer.old)
        → map (state_over sequencer.old.list) nodes.new.items ≡ catch_each m sequencer.old.list 0 (map (state_over sequencer.old.list) nodes.old.items)) }
{
    read_nodes_slice(nodes.as_mut_slice(), sequencer)
}

impl<'r> World<'r> {
    /// Lets every participant, paused or not, read to the end of the log. After want of memory some have read some of it.
    pub fn catch_up(&mut self) -> Result<(), AllocError>
        requires lawful { (m : Machine) × (state : MediatorState) × IsWorldOf m state self.old × Lawful m (world_of state self.old) }
        ensures log { self.new.sequencer ≡ self.old.sequencer }
        ensures now { self.new.now ≡ self.old.now }
        ensures is { (m : Machine) (state : MediatorState) → IsWorldOf m state self.old → IsWorldOf m state self.new }
        ensures set_up { (topology : Topology) (packages : Packages) → AreSetUp topology packages (self.old.nodes).items
            → AreSetUp topology packages (self.new.nodes).items }
        ensures bases { (bases : Bases) → AreBases bases (self.old.nodes).items
            → AreBases bases (self.new.nodes).items }
        ensures lawful { (m : Machine) (state : MediatorState) → IsWorldOf m state self.old → Lawful m (world_of state self.old)
            → Lawful m (world_of state self.new) }
        ensures ok { OnOk result ((m : Machine) (state : MediatorState) → IsWorldOf m state self.old → Lawful m (world_of state self.old)
            → world_of state self.new ≡ caught_up_world m (world_of state self.old)) }
    {
        read_nodes(&mut self.nodes, &mut self.sequencer)
    }
}

//! How all participants that aren't paused read to the end of the log.
ghost use Rattle.std.specs.Prelude.{◌≡◌, false, ℕ, List, OnOk};
ghost use Rattle.ledger_terms.specs.declared.topology.Topology.{Topology};
ghost use Rattle.ledger_model.specs.Terms.{ParticipantId};
ghost use Rattle.lang_eval.specs.Found.{Packages};
ghost use Rattle.world_model.specs.Machine.{Machine};
ghost use Rattle.world_model.specs.Mediator.{MediatorState};
ghost use Rattle.world_model.specs.Lawful.{Lawful};
ghost use Rattle.node_core.specs.Bases.{AreBases, Bases};
ghost use Rattle.world_play.specs.Flags.{ArePaused, HaveAwakeRead};
ghost use Rattle.world_play.specs.Reading.{IsReader, Reads, has_read};
ghost use Rattle.world_play.specs.Submitting.{AreSetUp};
ghost use Rattle.world_play.specs.Worlds.{AreNodesOf, world_with};
ghost use Rattle.world_play.specs.WorldOf.{IsWorldOf, world_of};

use crate::reading::read_to_end;
use crate::world::{NodeList, World};
use node_core::Node;
use seq_log::Sequencer;
use std::alloc::AllocError;

fn read_if_awake(node: &mut Node<'_>, sequencer: &mut Sequencer<'_>) -> Result<(), AllocError>
    requires { Reads node.old sequencer.old.list }
    ensures same { sequencer.new ≡ sequencer.old }
    ensures some { IsReader node.old sequencer.old.list node.new }
    ensures flag { node.new.state.is_paused ≡ node.old.state.is_paused }
    ensures ok { OnOk result (node.old.state.is_paused ≡ false → node.new ≡ has_read node.old sequencer.old.list) }
{
    if node.paused() {
        return Ok(());
    }
    read_to_end(node, sequencer)
}

fn read_awake_slice(nodes: &mut [Node<'_>], sequencer: &mut Sequencer<'_>) -> Result<(), AllocError>
    requires { (m : Machine) × (now : ℕ) × (state : MediatorState) × AreNodesOf m nodes.old sequencer.old
        × Lawful m (world_with now state nodes.old sequencer.old) }
    ensures log { sequencer.new ≡ sequencer.old }
    ensures nodes { (m : Machine) → AreNodesOf m nodes.old sequencer.old → AreNodesOf m nodes.new sequencer.old }
    ensures set_up { (topology : Topology) (packages : Packages) → AreSetUp topology packages nodes.old → AreSetUp topology packages nodes.new }
    ensures bases { (bases : Bases) → AreBases bases nodes.old → AreBases bases nodes.new }
    ensures lawful { (m : Machine) (now : ℕ) (state : MediatorState) → AreNodesOf m nodes.old sequencer.old
        → Lawful m (world_with now state nodes.old sequencer.old) → Lawful m (world_with now state nodes.new sequencer.old) }
    ensures paused { (paused : List ParticipantId) → ArePaused paused nodes.old → ArePaused paused nodes.new }
    ensures ok { OnOk result (HaveAwakeRead sequencer.old.list nodes.new) }
{
    'nodes: for node in nodes.iter_mut() {
        read_if_awake(node, sequencer)?;
    }
    Ok(())
}

fn read_awake_list(
    nodes: &mut NodeList<'_>,
    sequencer: &mut Sequencer<'_>,
) -> Result<(), AllocError>
    requires { (m : Machine) × (now : ℕ) × (state : MediatorState) × AreNodesOf m nodes.old.items sequencer.old
        × Lawful m (world_with now state nodes.old.items sequencer.old) }
    ensures log { sequencer.new ≡ sequencer.old }
    ensures nodes { (m : Machine) → AreNodesOf m nodes.old.items sequencer.old → AreNodesOf m nodes.new.items sequencer.old }
    ensures set_up { (topology : Topology) (packages : Packages) → AreSetUp topology packages nodes.old.items → AreSetUp topology packages nodes.new.items }
    ensures bases { (bases : Bases) → AreBases bases nodes.old.items → AreBases bases nodes.new.items }
    ensures lawful { (m : Machine) (now : ℕ) (state : MediatorState) → AreNodesOf m nodes.old.items sequencer.old
        → Lawful m (world_with now state nodes.old.items sequencer.old) → Lawful m (world_with now state nodes.new.items sequencer.old) }
    ensures paused { (paused : List ParticipantId) → ArePaused paused nodes.old.items → ArePaused paused nodes.new.items }
    ensures ok { OnOk result (HaveAwakeRead sequencer.old.list nodes.new.items) }
{
    read_awake_slice(nodes.as_mut_slice(), sequencer)
}

impl<'r> World<'r> {
    /// Lets every participant that isn't paused read to the end of the log. Rules are asked after it, about what was read. After want of memory
    /// some have read some of it.
    pub fn read_awake(&mut self) -> Result<(), AllocError>
        requires lawful { (m : Machine) × (state : MediatorState) × IsWorldOf m state self.old × Lawful m (world_of state self.old) }
        ensures log { self.new.sequencer ≡ self.old.sequencer }
        ensures now { self.new.now ≡ self.old.now }
        ensures is { (m : Machine) (state : MediatorState) → IsWorldOf m state self.old → IsWorldOf m state self.new }
        ensures set_up { (topology : Topology) (packages : Packages) → AreSetUp topology packages (self.old.nodes).items
            → AreSetUp topology packages (self.new.nodes).items }
        ensures bases { (bases : Bases) → AreBases bases (self.old.nodes).items
            → AreBases bases (self.new.nodes).items }
        ensures lawful { (m : Machine) (state : MediatorState) → IsWorldOf m state self.old → Lawful m (world_of state self.old)
            → Lawful m (world_of state self.new) }
        ensures paused { (paused : List ParticipantId) → ArePaused paused (self.old.nodes).items → ArePaused paused (self.new.nodes).items }
        ensures ok { OnOk result (HaveAwakeRead (self.old.sequencer).list (self.new.nodes).items) }
    {
        read_awake_list(&mut self.nodes, &mut self.sequencer)
    }
}

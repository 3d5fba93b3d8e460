//! What was lost, or claimed and left, comes again.
ghost use Rattle.std.specs.Prelude.{◌≡◌, ◌&&◌, ℕ, true, length, map, nat_lt};
ghost use Rattle.ledger_terms.specs.declared.topology.Topology.{Topology};
ghost use Rattle.lang_eval.specs.Found.{Packages};
ghost use Rattle.canton_model.specs.Genuine.{IsReading};
ghost use Rattle.world_model.specs.Machine.{Machine, GenuineLog};
ghost use Rattle.world_model.specs.Mediator.{MediatorState};
ghost use Rattle.world_model.specs.Lawful.{Lawful};
ghost use Rattle.world_model.specs.Settled.{is_due};
ghost use Rattle.world_model.specs.Settling.{resume_each, resumed, resumed_world, returned};
ghost use Rattle.seq_log.specs.OpenRequests.{is_open};
ghost use Rattle.seq_log.specs.Sequenced.{IsFor};
ghost use Rattle.node_core.specs.OverLog.{HasInbox, inbox_over, state_over};
ghost use Rattle.node_core.specs.Participant.{with_state};
ghost use Rattle.node_core.specs.Bases.{AreBases, Bases};
ghost use Rattle.world_play.specs.Parts.{IsMediator, IsParticipant};
ghost use Rattle.world_play.specs.Submitting.{AreSetUp};
ghost use Rattle.world_play.specs.Worlds.{AreNodesOf, world_with};
ghost use Rattle.world_play.specs.WorldOf.{IsWorldOf, world_of};

use crate::scanning::is_due;
use crate::world::{NodeList, World};
use mediator::Mediator;
use node_core::Node;
use seq_log::Sequencer;

// The participant with this index has read the open request at a place, and owes a response to it.
fn must_resume(node: &Node<'_>, sequencer: &mut Sequencer<'_>, place: u64, at: usize) -> bool
    requires { is_open (sequencer.old.topology).params sequencer.old.list place ≡ true }
    ensures same { sequencer.new ≡ sequencer.old }
    ensures test { (m : Machine) → IsReading m.reading → IsFor m sequencer.old → GenuineLog m sequencer.old.list
        → result ≡ (is_due m sequencer.old.list at place && nat_lt place (length (node.now.state).items)) }
{
    if place >= node.cursor() {
        return false;
    }
    is_due(sequencer, place, at)
}

// The participant with this index puts back each open request that it has read and to which it owes a response.
fn resume_node(node: &mut Node<'_>, sequencer: &mut Sequencer<'_>, at: usize)
    requires { (m : Machine) × IsParticipant m at node.old sequencer.old }
    ensures log { sequencer.new ≡ sequencer.old }
    ensures same { node.new ≡ with_state node.old node.new.state }
    ensures inbox { HasInbox (inbox_over sequencer.old.list node.old) node.old → HasInbox (inbox_over sequencer.old.list node.new) node.new }
    ensures resumed { (m : Machine) → IsParticipant m at node.old sequencer.old
        → state_over sequencer.old.list node.new ≡ resumed m sequencer.old.list at (state_over sequencer.old.list node.old) }
{
    'places: for number in 0..sequencer.open_requests().len() {
        let place = sequencer.open_requests()[number];
        if must_resume(node, sequencer, place, at) {
            node.put_back(place);
        }
    }
}

// Each of the participants puts back such requests.
fn resume_nodes_slice(nodes: &mut [Node<'_>], sequencer: &mut Sequencer<'_>)
    requires { (m : Machine) × (now : ℕ) × (state : MediatorState) × AreNodesOf m nodes.old sequencer.old
        × Lawful m (world_with now state nodes.old sequencer.old) }
    ensures log { sequencer.new ≡ sequencer.old }
    ensures nodes { (m : Machine) → AreNodesOf m nodes.old sequencer.old → AreNodesOf m nodes.new sequencer.old }
    ensures set_up { (topology : Topology) (packages : Packages) → AreSetUp topology packages nodes.old → AreSetUp topology packages nodes.new }
    ensures bases { (bases : Bases) → AreBases bases nodes.old → AreBases bases nodes.new }
    ensures resumed { (m : Machine) (now : ℕ) (state : MediatorState) → AreNodesOf m nodes.old sequencer.old
        → Lawful m (world_with now state nodes.old sequencer.old)
        → map (state_over sequencer.old.list) nodes.new ≡ resume_each m sequencer.old.list 0 (map (state_over sequencer.old.list) nodes.old) }
{
    let mut at: usize = 0;
    'nodes: for node in nodes.iter_mut() {
        resume_node(node, sequencer, at);
        at += 1;
    }
}

// The same of a list.
fn resume_nodes(nodes: &mut NodeList<'_>, sequencer: &mut Sequencer<'_>)
    requires { (m : Machine) × (now : ℕ) × (state : MediatorState) × AreNodesOf m nodes.old.items sequencer.old
        × Lawful m (world_with now state nodes.old.items sequencer.old) }
    ensures log { sequencer.new ≡ sequencer.old }
    ensures nodes { (m : Machine) → AreNodesOf m nodes.old.items sequencer.old → AreNodesOf m nodes.new.items sequencer.old }
    ensures set_up { (topology : Topology) (packages : Packages) → AreSetUp topology packages nodes.old.items → AreSetUp topology packages nodes.new.items }
    ensures bases { (bases : Bases) → AreBases bases nodes.old.items → AreBases bases nodes.new.items }
    ensures resumed { (m : Machine) (now : ℕ) (state : MediatorState) → AreNodesOf m nodes.old.items sequencer.old
        → Lawful m (world_with now state nodes.old.items sequencer.old)
        → map (state_over sequencer.old.list) nodes.new.items ≡ resume_each m sequencer.old.list 0 (map (state_over sequencer.old.list) nodes.old.items) }
{
    resume_nodes_slice(nodes.as_mut_slice(), sequencer);
}

// The verdict on each open request that the mediator has read is given back to it.
fn resume_mediator(mediator: &mut Mediator, sequencer: &Sequencer<'_>)
    requires { (m : Machine) × (state : MediatorState) × (n : ℕ) × IsMediator m state n mediator.old sequencer.now }
    ensures returned { (m : Machine) (state : MediatorState) (n : ℕ) → IsMediator m state n mediator.old sequencer.now
        → IsMediator m (returned m.params sequencer.now.list state) n mediator.new sequencer.now }
{
    'places: for number in 0..sequencer.open_requests().len() {
        let place = sequencer.open_requests()[number];
        if place < mediator.cursor() {
            mediator.give_back(place);
        }
    }
}

/// What comes first where a synchroniser settles: each participant puts back each request that it has read and to which it owes a response, so that it
/// claims it again, and the mediator is given back the verdict on each undecided request that it has read, so that it takes it again.
pub fn resume(world: &mut World<'_>)
    requires { (m : Machine) × (state : MediatorState) × IsWorldOf m state world.old × Lawful m (world_of state world.old) }
    ensures log { world.new.sequencer ≡ world.old.sequencer }
    ensures now { world.new.now ≡ world.old.now }
    ensures is { (m : Machine) (state : MediatorState) → IsWorldOf m state world.old → Lawful m (world_of state world.old)
        → IsWorldOf m (returned m.params (world.old.sequencer).list state) world.new }
    ensures set_up { (topology : Topology) (packages : Packages) → AreSetUp topology packages (world.old.nodes).items
        → AreSetUp topology packages (world.new.nodes).items }
    ensures bases { (bases : Bases) → AreBases bases (world.old.nodes).items
        → AreBases bases (world.new.nodes).items }
    ensures resumed { (m : Machine) (state : MediatorState) → IsWorldOf m state world.old → Lawful m (world_of state world.old)
        → world_of (returned m.params (world.old.sequencer).list state) world.new ≡ resumed_world m (world_of state world.old) }
{
    resume_nodes(&mut world.nodes, &mut world.sequencer);
    resume_mediator(&mut world.mediator, &world.sequencer);
}

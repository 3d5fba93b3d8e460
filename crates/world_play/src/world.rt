//! The world of one synchroniser.
ghost use Rattle.std.specs.Prelude.{◌≡◌, ◌≤◌, length, IfOk};
ghost use Rattle.world_model.specs.Mediator.{new_mediator};
ghost use Rattle.world_model.specs.World.{new_world};
ghost use Rattle.node_core.specs.Machines.{machine_of};
ghost use Rattle.node_core.specs.Bases.{AreBases};
ghost use Rattle.world_play.specs.Making.{AreNewNodes};
ghost use Rattle.world_play.specs.Submitting.{AreSetUp};
ghost use Rattle.world_play.specs.WorldOf.{IsWorldOf, world_of};

use confirm_reply::Setup;
use ledger_terms::ParticipantId;
use log_row::LogRow;
use mediator::Mediator;
use node_core::Node;
use seq_log::Sequencer;
use std::alloc::{AllocError, Global};

/// Participants, in the order of the topology.
pub type NodeList<'r> = Vec<Node<'r>>;

/// A synchroniser: its sequencer with the log, its mediator, a node for each participant in the order of the topology, and the
/// time in microseconds that a Tick brings.
#[derive(Drop)]
pub struct World<'r> {
    pub sequencer: Sequencer<'r>,
    pub mediator: Mediator,
    pub nodes: NodeList<'r>,
    pub now: u64,
}

// A participant that has read nothing, for each host.
fn new_nodes<'r>(alloc: Global, setup: &'r Setup) -> Result<NodeList<'r>, AllocError>
    requires { length setup.now.topology.hosts ≤ 256 }
    ensures { IfOk result (λ nodes. AreNewNodes setup.now.topology setup.now.checked (length setup.now.topology.hosts) nodes.items) }
{
    let mut nodes = Vec::new(alloc);
    'hosts: for at in 0..setup.topology.hosts.len() {
        nodes.push(Node::new(alloc, setup, ParticipantId(at as u8)))?;
    }
    Ok(nodes)
}

impl<'r> World<'r> {
    /// The synchroniser of these parts; `nodes` stand in the order of the topology.
    pub fn of(
        sequencer: Sequencer<'r>,
        mediator: Mediator,
        nodes: NodeList<'r>,
        now: u64,
    ) -> World<'r>
        ensures { (result.sequencer ≡ sequencer.entry) × (result.mediator ≡ mediator) × (result.nodes ≡ nodes.entry) × (result.now ≡ now) }
    {
        World {
            sequencer,
            mediator,
            nodes,
            now,
        }
    }

    /// A synchroniser for the topology and packages of `setup`: with an empty log in `row`, a participant for each host, and nothing read. `capacity`
    /// is how many places of the log its requests may need in all. An Err is want of memory.
    pub fn new(
        alloc: Global,
        setup: &'r Setup,
        row: &'r mut LogRow,
        capacity: u64,
    ) -> Result<World<'r>, AllocError>
        requires { length setup.now.topology.hosts ≤ 256 }
        ensures is { IfOk result (λ world. IsWorldOf (machine_of setup.now.topology setup.now.checked capacity) new_mediator world) }
        ensures row { IfOk result (λ world. (world.sequencer).row ≡ row.old) }
        ensures set_up { IfOk result (λ world. AreSetUp setup.now.topology setup.now.checked (world.nodes).items) }
        ensures bases { IfOk result (λ world. AreBases (λ p. 0) (world.nodes).items) }
        ensures new { IfOk result (λ world. world_of new_mediator world
            ≡ new_world (machine_of setup.now.topology setup.now.checked capacity)) }
    {
        let nodes = new_nodes(alloc, setup)?;
        let mediator = Mediator::new(alloc, &setup.topology);
        let sequencer = Sequencer::new(alloc, row, capacity, &setup.topology)?;
        Ok(World::of(sequencer, mediator, nodes, 0))
    }

    /// Drops the synchroniser, so that its memory is given back. A caller that lets it go by this call needn't prove how the many types in it are
    /// dropped.
    pub fn give_back(self) {}
}

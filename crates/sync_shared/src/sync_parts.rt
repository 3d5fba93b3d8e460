//! The parts of a synchroniser.
use mediator::Mediator;
use node_core::Node;
use seq_log::Sequencer;

/// The parts of a synchroniser outside of locks, a node for each participant in the order of the topology among them, and the time
/// in microseconds.
#[derive(Drop)]
pub struct SyncParts<'r> {
    pub sequencer: Sequencer<'r>,
    pub mediator: Mediator,
    pub nodes: Vec<Node<'r>>,
    pub time: u64,
}

//! The lock of one participant.
ghost use Rattle.std.specs.Prelude.{◌≡◌, ◌+◌, ◌<◌, ◌≤◌, vec_len, vec_capacity, length, is_some, true, false, min};
ghost use Rattle.sync_shared.specs.Behind.{AreNodesBehind};
ghost use Rattle.sync_shared.specs.Slips.{read_to, InRow};

use crate::locked_log::{reached, slip_to};
use crate::locked_node::LockedNode;
use crate::session::Session;
use node_core::Node;
use seq_log::Sequencer;
use std::alloc::Global;
use std::sync::Mutex;

/// The lock of participant `I`, with its node exactly where the topology has such a participant.
#[derive(Drop)]
pub struct NodeLock<'r, S: Session, const I: u8> {
    pub node: Option<Mutex<LockedNode<'r, S, I>>>,
    ghost there: { I < length (S.topology).hosts → is_some node ≡ true },
    ghost none: { length (S.topology).hosts ≤ I → is_some node ≡ false },
}

impl<'r, S: Session, const I: u8> NodeLock<'r, S, I> {
    /// Takes the node of participant `I` from the end of `nodes` and puts it behind a lock; the lock is empty where the topology has no such participant.
    /// The sequencer gives the slip of what the node has read.
    pub fn of(
        alloc: Global,
        nodes: &mut Vec<Node<'r>>,
        sequencer: &mut Sequencer<'r>,
    ) -> NodeLock<'r, S, I>
        requires nodes { AreNodesBehind S.topology S.packages S.machine S.why S.bases sequencer.old.list nodes.old.items }
        requires row { sequencer.old.row ≡ S.history }
        requires count { vec_len nodes.old ≡ min (length (S.topology).hosts) (I + 1) }
        ensures nodes { AreNodesBehind S.topology S.packages S.machine S.why S.bases sequencer.old.list nodes.new.items }
        ensures count { vec_len nodes.new ≡ min (length (S.topology).hosts) I }
        ensures capacity { vec_capacity nodes.new ≡ vec_capacity nodes.old }
        ensures same { sequencer.new ≡ sequencer.old }
    {
        NodeLock {
            node: locked(alloc, nodes, sequencer),
        }
    }

    /// Takes the node out of its lock and puts it at the end of `nodes`; an empty lock adds nothing. The prover learns from the sequencer that what the
    /// node has read begins the log.
    pub fn put_back(self, nodes: &mut Vec<Node<'r>>, sequencer: &mut Sequencer<'r>)
        requires nodes { AreNodesBehind S.topology S.packages S.machine S.why S.bases sequencer.old.list nodes.old.items }
        requires row { sequencer.old.row ≡ S.history }
        requires count { vec_len nodes.old ≡ min (length (S.topology).hosts) I }
        requires enough { length (S.topology).hosts ≤ vec_capacity nodes.old }
        ensures nodes { AreNodesBehind S.topology S.packages S.machine S.why S.bases sequencer.old.list nodes.new.items }
        ensures count { vec_len nodes.new ≡ min (length (S.topology).hosts) (I + 1) }
        ensures capacity { vec_capacity nodes.new ≡ vec_capacity nodes.old }
        ensures same { sequencer.new ≡ sequencer.old }
    {
        unlocked(self.node, nodes, sequencer);
    }
}

// The last node goes behind a lock, where there are so many.
fn locked<'r, S: Session, const I: u8>(
    alloc: Global,
    room: &mut Vec<Node<'r>>,
    sequencer: &mut Sequencer<'r>,
) -> Option<Mutex<LockedNode<'r, S, I>>>
    requires nodes { AreNodesBehind S.topology S.packages S.machine S.why S.bases sequencer.old.list room.old.items }
    requires row { sequencer.old.row ≡ S.history }
    requires most { vec_len room.old ≤ I + 1 }
    ensures nodes { AreNodesBehind S.topology S.packages S.machine S.why S.bases sequencer.old.list room.new.items }
    ensures some { I < vec_len room.old → is_some result ≡ true }
    ensures none { vec_len room.old ≤ I → is_some result ≡ false }
    ensures left { vec_len room.new ≡ min (vec_len room.old) I }
    ensures capacity { vec_capacity room.new ≡ vec_capacity room.old }
    ensures same { sequencer.new ≡ sequencer.old }
{
    if room.len() <= I as usize {
        return None;
    }
    let node = room.pop()?;
    let last = slip_to(sequencer, node.cursor());
    Some(Mutex::new(LockedNode::of(alloc, node, last)))
}

// The node of a lock stands behind the others, where there is one.
fn unlocked<'r, S: Session, const I: u8>(
    lock: Option<Mutex<LockedNode<'r, S, I>>>,
    room: &mut Vec<Node<'r>>,
    sequencer: &mut Sequencer<'r>,
)
    requires nodes { AreNodesBehind S.topology S.packages S.machine S.why S.bases sequencer.old.list room.old.items }
    requires row { sequencer.old.row ≡ S.history }
    requires here { is_some lock ≡ true → vec_len room.old ≡ I }
    requires enough { is_some lock ≡ true → vec_len room.old < vec_capacity room.old }
    ensures nodes { AreNodesBehind S.topology S.packages S.machine S.why S.bases sequencer.old.list room.new.items }
    ensures none { is_some lock.entry ≡ false → vec_len room.new ≡ vec_len room.old }
    ensures some { is_some lock.entry ≡ true → vec_len room.new ≡ I + 1 }
    ensures capacity { vec_capacity room.new ≡ vec_capacity room.old }
    ensures same { sequencer.new ≡ sequencer.old }
{
    if let Some(lock) = lock {
        let (node, mut last) = lock.into_inner().into_parts();
        reached(sequencer, &mut last);
        room.push_reserved(node);
    }
}

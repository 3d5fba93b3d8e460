//! The locks of the participants.
ghost use Rattle.std.specs.Prelude.{◌≡◌, ◌≤◌, [], vec_len, vec_capacity, length};
ghost use Rattle.sync_shared.specs.Behind.{AreNodesBehind};

use crate::node_lock::NodeLock;
use crate::session::Session;
use node_core::Node;
use seq_log::Sequencer;
use std::alloc::Global;

/// A lock for each participant of the topology, each of a type of its own, so that it is known whose node lies behind it.
#[derive(Drop)]
pub struct LockedNodes<'r, S: Session> {
    pub first: NodeLock<'r, S, 0>,
    pub second: NodeLock<'r, S, 1>,
    pub third: NodeLock<'r, S, 2>,
    pub fourth: NodeLock<'r, S, 3>,
    pub fifth: NodeLock<'r, S, 4>,
    pub sixth: NodeLock<'r, S, 5>,
    pub seventh: NodeLock<'r, S, 6>,
    pub eighth: NodeLock<'r, S, 7>,
    // Empty, with room for all nodes, so that they come back without memory.
    room: Vec<Node<'r>>,
    ghost empty: { room.items ≡ [] },
    ghost enough: { length (S.topology).hosts ≤ vec_capacity room },
    ghost most: { length (S.topology).hosts ≤ 8 },
}

impl<'r, S: Session> LockedNodes<'r, S> {
    /// Puts each node behind a lock, without memory. The sequencer gives the slips of what the nodes have read, and `alloc` is what their calls allocate
    /// from.
    pub fn of(
        alloc: Global,
        nodes: Vec<Node<'r>>,
        sequencer: &mut Sequencer<'r>,
    ) -> LockedNodes<'r, S>
        requires nodes { AreNodesBehind S.topology S.packages S.machine S.why S.bases sequencer.old.list nodes.items }
        requires row { sequencer.old.row ≡ S.history }
        requires count { vec_len nodes ≡ length (S.topology).hosts }
        requires most { length (S.topology).hosts ≤ 8 }
        ensures { sequencer.new ≡ sequencer.old }
    {
        let mut room = nodes;
        let eighth = NodeLock::<'r, S, 7>::of(alloc, &mut room, sequencer);
        let seventh = NodeLock::<'r, S, 6>::of(alloc, &mut room, sequencer);
        let sixth = NodeLock::<'r, S, 5>::of(alloc, &mut room, sequencer);
        let fifth = NodeLock::<'r, S, 4>::of(alloc, &mut room, sequencer);
        let fourth = NodeLock::<'r, S, 3>::of(alloc, &mut room, sequencer);
        let third = NodeLock::<'r, S, 2>::of(alloc, &mut room, sequencer);
        let second = NodeLock::<'r, S, 1>::of(alloc, &mut room, sequencer);
        let first = NodeLock::<'r, S, 0>::of(alloc, &mut room, sequencer);
        LockedNodes {
            first,
            second,
            third,
            fourth,
            fifth,
            sixth,
            seventh,
            eighth,
            room,
        }
    }

    /// Takes the nodes out of their locks, without memory; they stand in the order of the topology. The sequencer, which is of this sharing's history,
    /// stays as it is: the prover learns from it that what each node has read begins the log.
    #[tactic(auto, using(crate::proofs::NodeLists::no_nodes))]
    pub fn into_nodes(self, sequencer: &mut Sequencer<'r>) -> Vec<Node<'r>>
        requires { sequencer.old.row ≡ S.history }
        ensures nodes { AreNodesBehind S.topology S.packages S.machine S.why S.bases sequencer.old.list result.items }
        ensures count { length result.items ≡ length (S.topology).hosts }
        ensures same { sequencer.new ≡ sequencer.old }
    {
        let LockedNodes {
            first,
            second,
            third,
            fourth,
            fifth,
            sixth,
            seventh,
            eighth,
            mut room,
        } = self;
        first.put_back(&mut room, sequencer);
        second.put_back(&mut room, sequencer);
        third.put_back(&mut room, sequencer);
        fourth.put_back(&mut room, sequencer);
        fifth.put_back(&mut room, sequencer);
        sixth.put_back(&mut room, sequencer);
        seventh.put_back(&mut room, sequencer);
        eighth.put_back(&mut room, sequencer);
        room
    }
}

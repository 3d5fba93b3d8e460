//! What became of a request.
ghost use Rattle.std.specs.Prelude.{◌≡◌, ◌<◌, ◌≤◌, length, IfNone, IfOk, IfSome, OnOk, OnErr};
ghost use Rattle.canton_model.specs.Log.{decision_time_of};
ghost use Rattle.canton_model.specs.Timeline.{outcome_of, timeline_of};
ghost use Rattle.world_model.specs.Locks.{SequencerBehind};
ghost use Rattle.node_core.specs.Completion.{completion_of};
ghost use Rattle.sync_shared.specs.Slips.{IsNextIn};
ghost use mathlib.Core.List.{IsPrefix};

use crate::client::Client;
use crate::locked_log::LockedLog;
use crate::locked_node::LockedNode;
use crate::locked_nodes::LockedNodes;
use crate::node_lock::NodeLock;
use crate::session::Session;
use crate::ticket::Ticket;
use log_row::Slip;
use node_core::Completion;
use std::alloc::AllocError;
use std::sync::{Mutex, Wait};

// What the participant reads next, where it hasn't read the log to its end. At the end it has read what the client has seen, and past
// the ticket's request.
fn unread<'r, S: Session, const I: u8>(
    log: &mut LockedLog<'r, S>,
    node: &mut LockedNode<'r, S, I>,
    client: &mut Client<'r, S>,
    ticket: &mut Ticket<'r>,
) -> Option<Slip<'r>>
    requires { ticket.old.row ≡ S.history }
    ensures same { (log.new ≡ log.old) × (node.new ≡ node.old) × (client.new ≡ client.old) × (ticket.new ≡ ticket.old) }
    ensures some { IfSome result (IsNextIn S.history S.machine node.old) }
    ensures seen { IfNone result (IsPrefix client.old.list node.old) }
    ensures ticket { IfNone result (IsPrefix ticket.old.list node.old) }
    ensures genuine { IfNone result (SequencerBehind S.machine node.old) }
{
    client.reaches(log);
    ticket.reaches(log);
    node.unread(log)
}

// The participant reads at least what the client has seen, and past the ticket's request. The log is locked for one slip at a time,
// since reading takes long.
fn read_past<'r, S: Session, R: Wait, const I: u8>(
    rt: &R,
    log: &Mutex<LockedLog<'r, S>>,
    node: &mut LockedNode<'r, S, I>,
    client: &mut Client<'r, S>,
    ticket: &mut Ticket<'r>,
) -> Result<(), AllocError>
    requires { ticket.old.row ≡ S.history }
    ensures same { (client.new ≡ client.old) × (ticket.new ≡ ticket.old) }
    ensures seen { OnOk result (IsPrefix client.old.list node.new) }
    ensures ticket { OnOk result (IsPrefix ticket.old.list node.new) }
    ensures genuine { OnOk result (SequencerBehind S.machine node.new) }
{
    'entries: loop {
        let slip = unread(&mut *log.lock(rt), node, client, ticket);
        match slip {
            Some(slip) => node.read(slip)?,
            None => return Ok(()),
        }
    }
}

// What became of the ticket's request at participant I.
fn complete_at<'r, S: Session, R: Wait, const I: u8>(
    rt: &R,
    log: &Mutex<LockedLog<'r, S>>,
    lock: &NodeLock<'r, S, I>,
    client: &mut Client<'r, S>,
    ticket: &mut Ticket<'r>,
) -> Result<Completion, AllocError>
    requires there { I < length (S.topology).hosts }
    requires ticket { (ticket.old.row ≡ S.history) × (ticket.old.me ≡ I) }
    requires base { S.bases I ≤ ticket.old.place }
    ensures same { ticket.new ≡ ticket.old }
    ensures seen { IsPrefix client.old.list client.new.list }
    ensures client { (client.new.tickets ≡ client.old.tickets) × (client.new.me ≡ client.old.me) }
    ensures holds { OnOk result (IsPrefix ticket.old.list client.new.list) }
    ensures genuine { OnOk result (SequencerBehind S.machine client.new.list) }
    ensures answer { IfOk result (λ c. c ≡ completion_of (length client.new.list)
        (outcome_of (timeline_of client.new.list) ticket.old.place (decision_time_of S.machine.params client.new.list ticket.old.place))) }
    ensures err { OnErr result (client.new ≡ client.old) }
{
    let Some(lock) = &lock.node else {
        unreachable!();
    };
    let mut node = lock.lock(rt);
    read_past(rt, log, &mut *node, client, ticket)?;
    let completion = node.completion_of(ticket.place())?;
    client.sees(node.last());
    Ok(completion)
}

/// What became of the ticket's request, by what the client's participant has read. The request mustn't stand below that participant's base, below which
/// requests are forgotten. The participant, paused or not, first reads at least what the client has seen, and past the request; the client has then
/// seen all that it has read. `rt` is what the thread waits by at the locks.
pub fn complete<'r, S: Session, R: Wait>(
    rt: &R,
    log: &Mutex<LockedLog<'r, S>>,
    nodes: &LockedNodes<'r, S>,
    client: &mut Client<'r, S>,
    ticket: &mut Ticket<'r>,
) -> Result<Completion, AllocError>
    requires ticket { (ticket.old.row ≡ S.history) × (ticket.old.me ≡ client.old.me) }
    requires base { S.bases client.old.me ≤ ticket.old.place }
    ensures same { ticket.new ≡ ticket.old }
    ensures seen { IsPrefix client.old.list client.new.list }
    ensures client { (client.new.tickets ≡ client.old.tickets) × (client.new.me ≡ client.old.me) }
    ensures holds { OnOk result (IsPrefix ticket.old.list client.new.list) }
    ensures genuine { OnOk result (SequencerBehind S.machine client.new.list) }
    ensures answer { IfOk result (λ c. c ≡ completion_of (length client.new.list)
        (outcome_of (timeline_of client.new.list) ticket.old.place (decision_time_of S.machine.params client.new.list ticket.old.place))) }
    ensures err { OnErr result (client.new ≡ client.old) }
{
    match client.participant().0 {
        0 => complete_at(rt, log, &nodes.first, client, ticket),
        1 => complete_at(rt, log, &nodes.second, client, ticket),
        2 => complete_at(rt, log, &nodes.third, client, ticket),
        3 => complete_at(rt, log, &nodes.fourth, client, ticket),
        4 => complete_at(rt, log, &nodes.fifth, client, ticket),
        5 => complete_at(rt, log, &nodes.sixth, client, ticket),
        6 => complete_at(rt, log, &nodes.seventh, client, ticket),
        7 => complete_at(rt, log, &nodes.eighth, client, ticket),
        _ => unreachable!(),
    }
}

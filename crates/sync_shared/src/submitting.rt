//! A submission in its two halves: the participant prepares the request under its own lock, and hands it in under the log's.
ghost use Rattle.std.specs.Prelude.{◌≡◌, ◌≢◌, ◌+◌, ◌<◌, ◌≤◌, ◌^◌, List, ℕ, Some, None, true, false, length, IfOk, IfErr, IfNone, IfSome, OnOk};
ghost use Rattle.lang_eval.specs.Named.{AreKnown};
ghost use Rattle.canton_model.specs.Inbox.{inbox};
ghost use Rattle.sealed_form.specs.Within.{is_hosted};
ghost use Rattle.world_model.specs.Locks.{SequencerBehind};
ghost use Rattle.world_model.specs.Places.{has_place};
ghost use Rattle.world_model.specs.Rounds.{Unwanted};
ghost use Rattle.threads_model.specs.Inputs.{one_if};
ghost use Rattle.threads_model.specs.Clients.{ClientStep};
ghost use Rattle.prepare_request.specs.Causes.{HoldsNoMemory};
ghost use Rattle.prepare_request.specs.Within.{parties_in_what};
ghost use Rattle.prepare_request.specs.declared.submit_fault.SubmitFault.TheVariants.{Memory};
ghost use Rattle.seq_log.specs.declared.fault.AppendFault.TheVariants.{TooLate, Unframed};
ghost use Rattle.sync_shared.specs.Slips.{IsNextIn};
ghost use Rattle.sync_shared.specs.Answers.{answer_of, fault_of, has_ticket, refused_at, seen_after, told_of};
ghost use mathlib.Core.List.{IsPrefix};

use crate::client::Client;
use crate::locked_log::LockedLog;
use crate::locked_node::LockedNode;
use crate::locked_nodes::LockedNodes;
use crate::node_lock::NodeLock;
use crate::session::Session;
use crate::ticket::Ticket;
use canton_model::Request;
use ledger_terms::Submission;
use log_row::Slip;
use node_core::{SubmitFault, SubmitRefusal};
use seq_log::AppendFault;
use std::alloc::AllocError;
use std::sync::{Mutex, Wait};

// What the participant reads next, where it hasn't read the log to its end. At the end it has read what the client has seen.
fn unread<'r, S: Session, const I: u8>(
    log: &mut LockedLog<'r, S>,
    node: &mut LockedNode<'r, S, I>,
    client: &mut Client<'r, S>,
) -> Option<Slip<'r>>
    ensures same { (log.new ≡ log.old) × (node.new ≡ node.old) × (client.new ≡ client.old) }
    ensures some { IfSome result (IsNextIn S.history S.machine node.old) }
    ensures seen { IfNone result (IsPrefix client.old.list node.old) }
    ensures genuine { IfNone result (SequencerBehind S.machine node.old) }
{
    client.reaches(log);
    node.unread(log)
}

// The participant reads at least what the client has seen. The log is locked for one slip at a time, since reading takes long.
fn catch_up<'r, S: Session, R: Wait, const I: u8>(
    rt: &R,
    log: &Mutex<LockedLog<'r, S>>,
    node: &mut LockedNode<'r, S, I>,
    client: &mut Client<'r, S>,
) -> Result<(), AllocError>
    ensures same { client.new ≡ client.old }
    ensures ok { OnOk result (IsPrefix client.old.list node.new) }
    ensures genuine { OnOk result (SequencerBehind S.machine node.new) }
{
    'entries: loop {
        let slip = unread(&mut *log.lock(rt), node, client);
        match slip {
            Some(slip) => node.read(slip)?,
            None => return Ok(()),
        }
    }
}

// What a client is told where the log takes no request. It has then seen the log to its end, unless there was no memory.
fn told<'r, S: Session>(
    log: &mut LockedLog<'r, S>,
    client: &mut Client<'r, S>,
    fault: AppendFault,
) -> SubmitFault
    requires in_time { (decision time : ℕ) → fault ≢ TooLate decision time }
    requires framed { fault ≢ Unframed }
    ensures fault { result ≡ told_of fault }
    ensures list { client.new.list ≡ seen_after fault client.old.list log.old }
    ensures seen { IsPrefix client.old.list log.old → IsPrefix client.old.list client.new.list }
    ensures client { (client.new.tickets ≡ client.old.tickets) × (client.new.me ≡ client.old.me) }
    ensures plain { HoldsNoMemory result }
{
    match fault {
        AppendFault::Already { place } => {
            client.sees(log.last());
            SubmitFault::Duplicate { place }
        }
        AppendFault::LogFull { reserved, need } => {
            client.sees(log.last());
            SubmitFault::LogFull { reserved, need }
        }
        AppendFault::Unframed | AppendFault::TooLate { .. } => unreachable!(),
        AppendFault::Memory => SubmitFault::Memory,
    }
}

// The request that is wanted is handed in. The client has then seen as far as the answer goes.
fn hand_in<'r, S: Session, const I: u8>(
    log: &mut LockedLog<'r, S>,
    node: &mut LockedNode<'r, S, I>,
    client: &mut Client<'r, S>,
    what: &Submission,
    request: Request,
    now: u64,
) -> Result<Ticket<'r>, SubmitRefusal>
    requires time { now ≤ 10 ^ 16 }
    requires mine { (what.now.participant ≡ I) × (client.old.me ≡ I) × (request.sender ≡ I) }
    requires knows { IsPrefix client.old.list node.old }
    requires wanted { S.machine.prepare what.now (inbox S.machine.reading I node.old) now ≡ Some request }
    requires framed { (S.machine.reading).is_framed request ≡ true }
    ensures step { IfSome (answer_of result) (λ r. (paused : List ℕ) → has_place paused what.now.participant ≡ false
        → ClientStep S.machine S.why now paused client.old.list what.now r client.new.list) }
    ensures genuine { IfSome (answer_of result) (λ r. SequencerBehind S.machine client.new.list) }
    ensures ticket { IfOk result (λ t. (t.row ≡ S.history) × (t.list ≡ client.new.list) × (t.me ≡ client.old.me)) }
    ensures base { IfOk result (λ t. S.bases client.old.me ≤ t.place) }
    ensures tickets { client.new.tickets ≡ client.old.tickets + one_if (has_ticket result) }
    ensures seen { IsPrefix client.old.list client.new.list }
    ensures me { client.new.me ≡ client.old.me }
    ensures plain { IfErr result (λ refusal. HoldsNoMemory refusal.fault) }
{
    node.reaches(log);
    let read_to = node.cursor();
    let me = client.participant();
    match log.append(&mut client.share, request, now) {
        Ok(mut slip) => {
            client.last = Some(slip.again());
            Ok(Ticket::of(slip, read_to, me))
        }
        Err(fault) => Err(SubmitRefusal {
            fault: told(log, client, fault),
            read_to,
        }),
    }
}

// The submission wants no request. The client has then seen what the participant has read.
fn refuse<'r, S: Session, const I: u8>(
    node: &mut LockedNode<'r, S, I>,
    client: &mut Client<'r, S>,
    what: &Submission,
    fault: SubmitFault,
    now: u64,
) -> SubmitRefusal
    requires mine { what.now.participant ≡ I }
    requires knows { IsPrefix client.old.list node.old }
    requires unwanted { fault ≢ Memory → (S.machine.prepare what.now (inbox S.machine.reading I node.old) now ≡ None)
        × (S.why what.now (inbox S.machine.reading I node.old) now ≡ fault) × (fault_of fault ≡ Some (Unwanted fault)) }
    requires genuine { SequencerBehind S.machine node.old }
    ensures step { IfSome (refused_at result.read_to (fault_of result.fault)) (λ r. (paused : List ℕ) → has_place paused what.now.participant ≡ false
        → ClientStep S.machine S.why now paused client.old.list what.now r client.new.list) }
    ensures fault { result.fault ≡ fault }
    ensures genuine { SequencerBehind S.machine client.new.list }
    ensures tickets { client.new.tickets ≡ client.old.tickets }
    ensures seen { IsPrefix client.old.list client.new.list }
    ensures me { client.new.me ≡ client.old.me }
{
    client.sees(node.last());
    SubmitRefusal {
        fault,
        read_to: node.cursor(),
    }
}

// Submits for a participant whose lock is held: it reads to the end of the log first.
fn submit_locked<'r, S: Session, R: Wait, const I: u8>(
    rt: &R,
    log: &Mutex<LockedLog<'r, S>>,
    node: &mut LockedNode<'r, S, I>,
    client: &mut Client<'r, S>,
    what: &Submission,
    now: u64,
) -> Result<Ticket<'r>, SubmitRefusal>
    requires time { now ≤ 10 ^ 16 }
    requires mine { (what.now.participant ≡ I) × (client.old.me ≡ I) }
    requires named { AreKnown (is_hosted S.topology) (parties_in_what what.now.what) }
    ensures step { IfSome (answer_of result) (λ r. (paused : List ℕ) → has_place paused what.now.participant ≡ false
        → ClientStep S.machine S.why now paused client.old.list what.now r client.new.list) }
    ensures genuine { IfSome (answer_of result) (λ r. SequencerBehind S.machine client.new.list) }
    ensures ticket { IfOk result (λ t. (t.row ≡ S.history) × (t.list ≡ client.new.list) × (t.me ≡ client.old.me)) }
    ensures base { IfOk result (λ t. S.bases client.old.me ≤ t.place) }
    ensures tickets { client.new.tickets ≡ client.old.tickets + one_if (has_ticket result) }
    ensures seen { IsPrefix client.old.list client.new.list }
    ensures me { client.new.me ≡ client.old.me }
    ensures plain { IfErr result (λ refusal. HoldsNoMemory refusal.fault) }
{
    if catch_up(rt, log, node, client).is_err() {
        return Err(SubmitRefusal {
            fault: SubmitFault::Memory,
            read_to: client.seen(),
        });
    }
    match node.prepare(what, now) {
        Ok(request) => hand_in(&mut *log.lock(rt), node, client, what, request, now),
        Err(fault) => Err(refuse(node, client, what, fault, now)),
    }
}

// A submission of participant I, which isn't paused.
fn submit_at<'r, S: Session, R: Wait, const I: u8>(
    rt: &R,
    log: &Mutex<LockedLog<'r, S>>,
    lock: &NodeLock<'r, S, I>,
    client: &mut Client<'r, S>,
    what: &Submission,
    now: u64,
) -> Result<Ticket<'r>, SubmitRefusal>
    requires there { I < length (S.topology).hosts }
    requires time { now ≤ 10 ^ 16 }
    requires mine { (what.now.participant ≡ I) × (client.old.me ≡ I) }
    requires named { AreKnown (is_hosted S.topology) (parties_in_what what.now.what) }
    ensures step { IfSome (answer_of result) (λ r. (paused : List ℕ) → has_place paused what.now.participant ≡ false
        → ClientStep S.machine S.why now paused client.old.list what.now r client.new.list) }
    ensures genuine { IfSome (answer_of result) (λ r. SequencerBehind S.machine client.new.list) }
    ensures ticket { IfOk result (λ t. (t.row ≡ S.history) × (t.list ≡ client.new.list) × (t.me ≡ client.old.me)) }
    ensures base { IfOk result (λ t. S.bases client.old.me ≤ t.place) }
    ensures tickets { client.new.tickets ≡ client.old.tickets + one_if (has_ticket result) }
    ensures seen { IsPrefix client.old.list client.new.list }
    ensures me { client.new.me ≡ client.old.me }
    ensures plain { IfErr result (λ refusal. HoldsNoMemory refusal.fault) }
{
    let Some(lock) = &lock.node else {
        unreachable!();
    };
    let mut node = lock.lock(rt);
    submit_locked(rt, log, &mut *node, client, what, now)
}

/// Submits for the client's participant, which isn't paused: this reads at least what the client has seen, and the request that the submission wants is
/// handed in. An Err says why none was sent, and how many entries had been read. `rt` is what the thread waits by at the locks, and `now` the round's
/// time.
pub fn submit_awake<'r, S: Session, R: Wait>(
    rt: &R,
    log: &Mutex<LockedLog<'r, S>>,
    nodes: &LockedNodes<'r, S>,
    client: &mut Client<'r, S>,
    what: &Submission,
    now: u64,
) -> Result<Ticket<'r>, SubmitRefusal>
    requires time { now ≤ 10 ^ 16 }
    requires mine { what.now.participant ≡ client.old.me }
    requires named { AreKnown (is_hosted S.topology) (parties_in_what what.now.what) }
    ensures step { IfSome (answer_of result) (λ r. (paused : List ℕ) → has_place paused what.now.participant ≡ false
        → ClientStep S.machine S.why now paused client.old.list what.now r client.new.list) }
    ensures genuine { IfSome (answer_of result) (λ r. SequencerBehind S.machine client.new.list) }
    ensures ticket { IfOk result (λ t. (t.row ≡ S.history) × (t.list ≡ client.new.list) × (t.me ≡ client.old.me)) }
    ensures base { IfOk result (λ t. S.bases client.old.me ≤ t.place) }
    ensures tickets { client.new.tickets ≡ client.old.tickets + one_if (has_ticket result) }
    ensures seen { IsPrefix client.old.list client.new.list }
    ensures me { client.new.me ≡ client.old.me }
    ensures plain { IfErr result (λ refusal. HoldsNoMemory refusal.fault) }
{
    match client.participant().0 {
        0 => submit_at(rt, log, &nodes.first, client, what, now),
        1 => submit_at(rt, log, &nodes.second, client, what, now),
        2 => submit_at(rt, log, &nodes.third, client, what, now),
        3 => submit_at(rt, log, &nodes.fourth, client, what, now),
        4 => submit_at(rt, log, &nodes.fifth, client, what, now),
        5 => submit_at(rt, log, &nodes.sixth, client, what, now),
        6 => submit_at(rt, log, &nodes.seventh, client, what, now),
        7 => submit_at(rt, log, &nodes.eighth, client, what, now),
        _ => unreachable!(),
    }
}

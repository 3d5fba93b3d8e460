//! What lanes do for the participants and the mediator.
ghost use Rattle.std.specs.Prelude.{◌≡◌, IfOk, IfSome};
ghost use Rattle.world_model.specs.Fits.{IsDecision, IsOwed};
ghost use Rattle.sync_shared.specs.Lanes.{IsClaimed, IsCopied, IsStep};
ghost use Rattle.sync_shared.specs.Slips.{read_to, InRow};

use crate::locked_log::LockedLog;
use crate::locked_mediator::LockedMediator;
use crate::locked_node::LockedNode;
use crate::locked_nodes::LockedNodes;
use crate::node_lock::NodeLock;
use crate::node_step::{ClaimedJob, CopiedResponse, NodeStep};
use crate::session::Session;
use crate::slips::again;
use crate::watched_job::run_job;
use canton_model::{Message, Response, Verdict};
use lane_pool::Gate;
use log_row::Slip;
use std::alloc::{AllocError, AllocGlobal};
use std::random::RandomSource;
use std::sync::{Mutex, Wait};

// The participant reads to the end of the log, which is locked for one slip at a time, since reading takes long.
fn read_all<'r, S: Session, R: Wait, const I: u8>(
    rt: &R,
    log: &Mutex<LockedLog<'r, S>>,
    node: &mut LockedNode<'r, S, I>,
) -> Result<(), AllocError> {
    'entries: loop {
        let slip = node.unread(&mut *log.lock(rt));
        match slip {
            Some(slip) => node.read(slip)?,
            None => return Ok(()),
        }
    }
}

// A job that is claimed or a response to be sent, where there is nothing to read.
fn next_work<'r, S: Session, const I: u8>(
    node: &mut LockedNode<'r, S, I>,
) -> Result<NodeStep<'r>, AllocError>
    ensures { IfOk result (IsStep S.history S.machine S.bases I) }
{
    if let Some(job) = node.claim_job()? {
        let known = node.last();
        return Ok(NodeStep::Check(ClaimedJob { job, known }));
    }
    match node.outbox()? {
        Some(response) => {
            let known = node.last();
            Ok(NodeStep::Send(CopiedResponse { response, known }))
        }
        None => Ok(NodeStep::Done),
    }
}

// The participant reads all that it hasn't read, and says what there is to do.
fn next_step<'r, S: Session, R: Wait, const I: u8>(
    rt: &R,
    log: &Mutex<LockedLog<'r, S>>,
    lock: &Mutex<LockedNode<'r, S, I>>,
) -> Result<NodeStep<'r>, AllocError>
    ensures { IfOk result (IsStep S.history S.machine S.bases I) }
{
    let mut node = lock.lock(rt);
    read_all(rt, log, &mut *node)?;
    next_work(&mut *node)
}

// The job is done outside every lock, and finished where its claim still stands and its request isn't decided.
fn check<'r, S: Session, R: Wait + RandomSource + AllocGlobal, G: Gate, const I: u8>(
    rt: &R,
    lock: &Mutex<LockedNode<'r, S, I>>,
    claimed: ClaimedJob<'r>,
    gate: &G,
) -> Result<(), AllocError>
    requires { IsClaimed S.history S.machine S.bases I claimed }
{
    let mut claimed = claimed;
    let mut known = again(&mut claimed.known);
    if let Some(done) = run_job(rt, lock, claimed, gate)? {
        lock.lock(rt).finish_job(&mut known, done);
    }
    Ok(())
}

// A response that was owed over what was known is handed in.
fn hand_in_response<'r, S: Session>(
    log: &mut LockedLog<'r, S>,
    known: &mut Option<Slip<'r>>,
    response: Response,
) -> Result<(), AllocError>
    requires row { InRow S.history known.old }
    requires owed { IsOwed S.machine.reading S.machine.params (read_to known.old) response }
{
    log.reaches(known);
    log.answer(Message::Response(response))
}

// The response is appended under the log's lock, and then taken out of the outbox under the participant's.
fn send<'r, S: Session, R: Wait, const I: u8>(
    rt: &R,
    log: &Mutex<LockedLog<'r, S>>,
    lock: &Mutex<LockedNode<'r, S, I>>,
    copied: CopiedResponse<'r>,
) -> Result<(), AllocError>
    requires { IsCopied S.history S.machine copied }
{
    let CopiedResponse {
        response,
        mut known,
    } = copied;
    let request = response.request;
    hand_in_response(&mut *log.lock(rt), &mut known, response)?;
    lock.lock(rt).sent(request);
    Ok(())
}

// One participant reads to the end of the log, and then checks a request or, where it owes nothing, sends a response. It tells whether it
// did either.
fn take_turn<'r, S: Session, R: Wait + RandomSource + AllocGlobal, G: Gate, const I: u8>(
    rt: &R,
    log: &Mutex<LockedLog<'r, S>>,
    lock: &NodeLock<'r, S, I>,
    gate: &G,
) -> Result<bool, AllocError> {
    let Some(lock) = &lock.node else {
        return Ok(false);
    };
    match next_step(rt, log, lock)? {
        NodeStep::Done => return Ok(false),
        NodeStep::Check(claimed) => check(rt, lock, claimed, gate)?,
        NodeStep::Send(copied) => send(rt, log, lock, copied)?,
    }
    Ok(true)
}

/// The turn of the participant with the index `at`, from 0 to 7: it reads to the end of the log, and then checks one request or, where it owes nothing,
/// sends one response. The result is whether it did either, after which more may be left to be done; false where there is no such participant. An Err
/// is want of memory.
pub fn serve<'r, S: Session, R: Wait + RandomSource + AllocGlobal, G: Gate>(
    rt: &R,
    log: &Mutex<LockedLog<'r, S>>,
    nodes: &LockedNodes<'r, S>,
    at: u8,
    gate: &G,
) -> Result<bool, AllocError> {
    match at {
        0 => take_turn(rt, log, &nodes.first, gate),
        1 => take_turn(rt, log, &nodes.second, gate),
        2 => take_turn(rt, log, &nodes.third, gate),
        3 => take_turn(rt, log, &nodes.fourth, gate),
        4 => take_turn(rt, log, &nodes.fifth, gate),
        5 => take_turn(rt, log, &nodes.sixth, gate),
        6 => take_turn(rt, log, &nodes.seventh, gate),
        _ => take_turn(rt, log, &nodes.eighth, gate),
    }
}

// A verdict, with the slip of what the mediator had read when it gave it.
#[derive(Drop)]
struct GivenVerdict<'r> {
    verdict: Verdict,
    known: Option<Slip<'r>>,
}

// The mediator reads to the end of the log, which is locked for one slip at a time.
fn read_log<'r, S: Session, R: Wait>(
    rt: &R,
    log: &Mutex<LockedLog<'r, S>>,
    mediator: &mut LockedMediator<'r, S>,
) -> Result<(), AllocError> {
    'entries: loop {
        let slip = mediator.unread(&mut *log.lock(rt));
        match slip {
            Some(slip) => mediator.read(slip)?,
            None => return Ok(()),
        }
    }
}

// The mediator reads all that it hasn't read, and gives a verdict, unless verdicts are held.
fn next_verdict<'r, S: Session, R: Wait>(
    rt: &R,
    log: &Mutex<LockedLog<'r, S>>,
    mediator: &Mutex<LockedMediator<'r, S>>,
    hold_verdicts: bool,
) -> Result<Option<GivenVerdict<'r>>, AllocError>
    ensures { IfOk result (λ o. IfSome o (λ g. InRow S.history g.known × IsDecision S.machine.params (read_to g.known) g.verdict)) }
{
    let mut mediator = mediator.lock(rt);
    read_log(rt, log, &mut *mediator)?;
    if hold_verdicts {
        return Ok(None);
    }
    match mediator.take_verdict()? {
        Some(verdict) => {
            let known = mediator.last();
            Ok(Some(GivenVerdict { verdict, known }))
        }
        None => Ok(None),
    }
}

// A verdict that was decided over what was known is handed in.
fn hand_in_verdict<'r, S: Session>(
    log: &mut LockedLog<'r, S>,
    given: GivenVerdict<'r>,
) -> Result<(), AllocError>
    requires row { InRow S.history given.known }
    requires decided { IsDecision S.machine.params (read_to given.known) given.verdict }
{
    let GivenVerdict { verdict, mut known } = given;
    log.reaches(&mut known);
    log.answer(Message::Verdict(verdict))
}

/// The mediator reads to the end of the log and, unless verdicts are held, hands in one verdict, which is dropped where it comes too late. The result
/// is whether it handed one in. After want of memory a verdict may be taken and lost.
pub fn mediate<'r, S: Session, R: Wait>(
    rt: &R,
    log: &Mutex<LockedLog<'r, S>>,
    mediator: &Mutex<LockedMediator<'r, S>>,
    hold_verdicts: bool,
) -> Result<bool, AllocError> {
    let Some(given) = next_verdict(rt, log, mediator, hold_verdicts)? else {
        return Ok(false);
    };
    hand_in_verdict(&mut *log.lock(rt), given)?;
    Ok(true)
}

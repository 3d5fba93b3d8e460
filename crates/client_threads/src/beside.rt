//! Clients that submit beside lanes.
ghost use Rattle.std.specs.Prelude.{◌≡◌, ℕ, All, Some, Ok, IfOk, map, slice_get, vec_len};
ghost use Rattle.ledger_terms.specs.declared.submission.Submission.{Submission};
ghost use Rattle.lang_eval.specs.Named.{AreKnown};
ghost use Rattle.sealed_form.specs.Within.{is_hosted};
ghost use Rattle.prepare_request.specs.Within.{parties_in_what};
ghost use Rattle.sync_shared.specs.Clients.{Seen};
ghost use Rattle.client_threads.specs.Served.{IsServed};

use crate::lane_work::LaneWork;
use crate::served::Served;
use crate::serving::{serve_each, serve_in_turn};
use crate::workers::Workers;
use lane_pool::{Gate, Lane, run_lanes};
use ledger_terms::Submission;
use once_cell::race::OnceBool;
use std::alloc::{AllocError, AllocGlobal, Global};
use std::random::RandomSource;
use std::sync::Wait;
use std::thread::{Threads, join};
use sync_shared::{Client, Session, Shared};

/// How often lanes work until they find nothing more to do where there are many submissions: the participants answer, the mediator
/// decides, and they read what it decided.
const WAVES_OF_MANY: u32 = 3;

/// How many submissions are many. Of fewer, less is left after the first wave than it costs to start threads again.
const MANY: usize = 32;

// What all clients brought, unless one of them found no memory.
fn all_of<'r, S: Session>(
    alloc: Global,
    brought: Vec<Result<Served<'r, S>, AllocError>>,
) -> Result<Vec<Served<'r, S>>, AllocError>
    ensures { IfOk result (λ all. map Ok all.items ≡ brought.entry.items) }
{
    let mut all = Vec::new(alloc);
    'brought: for one in brought {
        all.push(one?)?;
    }
    Ok(all)
}

// What the lanes do, at least until a flag is set.
fn work_until<'a, 'r, S: Session + Send + Sync, R: Threads + Wait + Sync, G: Gate + Sync>(
    workers: &Workers<'a, R, G>,
    shared: &'a Shared<'r, S>,
    ended: &'a OnceBool,
) -> LaneWork<'a, 'r, S, R, G> {
    LaneWork {
        rt: workers.rt,
        gate: workers.gate,
        shared,
        lanes: workers.count,
        ended,
    }
}

// How many waves of the lanes there are beside so many submissions.
fn waves_of(submits: usize) -> u32 {
    if submits < MANY { 1 } else { WAVES_OF_MANY }
}

// The lanes work until they find nothing more to do, in waves. Each ends with all of them, since what one does may leave work to another.
fn run_waves<R: Threads + Wait + Sync, L: Lane<Start = ()>>(
    rt: &R,
    lanes: u32,
    waves: u32,
    work: &L,
) -> Result<(), AllocError> {
    for _ in 0..waves {
        run_lanes(rt, lanes, 1, work, ())?;
    }
    Ok(())
}

// The clients submit in threads of their own, beside the lanes.
fn serve_by_threads<
    'r,
    S: Session + Send + Sync,
    R: Threads + Wait + Sync + RandomSource + AllocGlobal,
    G: Gate + Sync,
>(
    workers: &Workers<'_, R, G>,
    shared: &Shared<'r, S>,
    clients: Vec<Client<'r, S>>,
    submits: &[Submission],
) -> Result<Vec<Served<'r, S>>, AllocError>
    requires fresh { All (λ (client : Seen). client.tickets ≡ 0) clients.items }
    requires named { All (λ (what : Submission). AreKnown (is_hosted S.topology) (parties_in_what what.what)) submits.now }
    ensures many { IfOk result (λ all. vec_len all ≡ vec_len clients.entry) }
    ensures each { IfOk result (λ all. (p : ℕ) (client : Seen) (served : _) → slice_get clients.entry.items p ≡ Some client
        → slice_get all.items p ≡ Some served → IsServed S.machine S.why shared.now.round.time shared.now.round.paused client.list submits.now client.me
        served.client served.results) }
{
    let rt = workers.rt;
    let alloc = workers.alloc;
    let lanes = workers.count;
    let waves = waves_of(submits.len());
    let ended = OnceBool::new();
    let work = work_until(workers, shared, &ended);
    let (ran, brought) = join(
        rt,
        || run_waves(rt, lanes, waves, &work),
        || -> Result<Vec<Result<Served<S>, AllocError>>, AllocError>
            requires { All (λ (client : Seen). client.tickets ≡ 0) clients.items
                × All (λ (what : Submission). AreKnown (is_hosted S.topology) (parties_in_what what.what)) submits.now }
            ensures many { IfOk result (λ all. vec_len all ≡ vec_len clients.entry) }
            ensures each { IfOk result (λ all. (p : ℕ) (client : Seen) (one : _) → slice_get clients.entry.items p ≡ Some client
                → slice_get all.items p ≡ Some one
                → IfOk one (λ served. IsServed S.machine S.why shared.entry.now.round.time shared.entry.now.round.paused client.list submits.entry.now
                client.me served.client served.results)) }
        {
            let all = serve_each(rt, alloc, shared, clients, submits);
            let _ = ended.set(true);
            all
        },
    );
    ran?;
    all_of(alloc, brought?)
}

/// Each client submits what is its participant's of `submits`, beside as many lanes as `workers` has, which go on until the clients have ended and they
/// find nothing more to do. The result has each client, in the order of `clients`, with the results of its submissions; an Err is want of memory of a
/// client, of a lane or for the lists. With fewer than two submissions no thread is started, since it would cost more than it saves, and no lane works.
pub fn serve_beside<
    'r,
    S: Session + Send + Sync,
    R: Threads + Wait + Sync + RandomSource + AllocGlobal,
    G: Gate + Sync,
>(
    workers: &Workers<'_, R, G>,
    shared: &Shared<'r, S>,
    clients: Vec<Client<'r, S>>,
    submits: &[Submission],
) -> Result<Vec<Served<'r, S>>, AllocError>
    requires fresh { All (λ (client : Seen). client.tickets ≡ 0) clients.items }
    requires named { All (λ (what : Submission). AreKnown (is_hosted S.topology) (parties_in_what what.what)) submits.now }
    ensures many { IfOk result (λ all. vec_len all ≡ vec_len clients.entry) }
    ensures each { IfOk result (λ all. (p : ℕ) (client : Seen) (served : _) → slice_get clients.entry.items p ≡ Some client
        → slice_get all.items p ≡ Some served → IsServed S.machine S.why shared.now.round.time shared.now.round.paused client.list submits.now client.me
        served.client served.results) }
{
    if submits.len() < 2 {
        return serve_in_turn(workers.rt, workers.alloc, shared, clients, submits);
    }
    serve_by_threads(workers, shared, clients, submits)
}

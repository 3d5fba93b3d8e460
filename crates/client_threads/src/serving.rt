//! What clients do: each submits what is its own, in the order of the script.
ghost use Rattle.std.specs.Prelude.{◌≡◌, ◌++◌, ◌∷◌, [], ℕ, All, List, Some, IfOk, OnOk, slice_get, vec_len};
ghost use Rattle.ledger_terms.specs.declared.submission.Submission.{Submission};
ghost use Rattle.lang_eval.specs.Named.{AreKnown};
ghost use Rattle.sealed_form.specs.Within.{is_hosted};
ghost use Rattle.prepare_request.specs.Within.{parties_in_what};
ghost use Rattle.world_model.specs.Messages.{Entry};
ghost use Rattle.sync_shared.specs.Clients.{Seen};
ghost use Rattle.client_threads.specs.Served.{IsServed};

use crate::answering::answer;
use crate::result_queue::ResultQueue;
use crate::served::Served;
use ledger_terms::Submission;
use std::alloc::{AllocError, Global};
use std::sync::Wait;
use std::thread;
use std::thread::Threads;
use sync_shared::{Client, Session, Shared};

// One of the round's submissions, where it is the client's own.
fn serve_one<'r, S: Session, R: Wait>(
    rt: &R,
    shared: &Shared<'r, S>,
    client: &mut Client<'r, S>,
    results: &mut ResultQueue,
    what: &Submission,
) -> Result<(), AllocError>
    requires named { AreKnown (is_hosted S.topology) (parties_in_what what.now.what) }
    ensures { OnOk result ((first : List Entry) (submits : List Submission) (p : ℕ)
        → IsServed S.machine S.why shared.now.round.time shared.now.round.paused first submits p client.old results.old
        → IsServed S.machine S.why shared.now.round.time shared.now.round.paused first (submits ++ what.now ∷ []) p client.new results.new) }
{
    if what.participant == client.participant() {
        let given = answer(rt, shared, client, what)?;
        results.push(given)?;
    }
    Ok(())
}

// The client's own submissions among those of the round.
fn serve<'r, S: Session, R: Wait>(
    rt: &R,
    alloc: Global,
    shared: &Shared<'r, S>,
    client: Client<'r, S>,
    submits: &[Submission],
) -> Result<Served<'r, S>, AllocError>
    requires fresh { client.tickets ≡ 0 }
    requires named { All (λ (what : Submission). AreKnown (is_hosted S.topology) (parties_in_what what.what)) submits.now }
    ensures { IfOk result (λ served. IsServed S.machine S.why shared.now.round.time shared.now.round.paused client.entry.list submits.now
        client.entry.me served.client served.results) }
{
    let mut client = client;
    let mut results = ResultQueue::new(alloc);
    'submits: for what in submits {
        serve_one(rt, shared, &mut client, &mut results, what)?;
    }
    Ok(Served { client, results })
}

/// Lets each client submit what is its participant's of `submits`, one client after another in this thread. The result has each client, in the order of
/// `clients`, with the results of its submissions; an Err is want of memory of one of them or for the list.
pub fn serve_in_turn<'r, S: Session, R: Wait>(
    rt: &R,
    alloc: Global,
    shared: &Shared<'r, S>,
    clients: Vec<Client<'r, S>>,
    submits: &[Submission],
) -> Result<Vec<Served<'r, S>>, AllocError>
    requires fresh { All (λ (client : Seen). client.tickets ≡ 0) clients.items }
    requires named { All (λ (what : Submission). AreKnown (is_hosted S.topology) (parties_in_what what.what)) submits.now }
    ensures many { IfOk result (λ all. vec_len all ≡ vec_len clients.entry) }
    ensures each { IfOk result (λ all. (p : ℕ) (client : Seen) (served : _) → slice_get clients.entry.items p ≡ Some client
        → slice_get all.items p ≡ Some served → IsServed S.machine S.why shared.now.round.time shared.now.round.paused client.list submits.now client.me
        served.client served.results) }
{
    let mut all = Vec::new(alloc);
    'clients: for client in clients {
        let served = serve(rt, alloc, shared, client, submits)?;
        all.push(served)?;
    }
    Ok(all)
}

/// Lets each client submit what is its participant's of `submits`, each in a thread of its own where `rt` can start one. The result has for each client,
/// in the order of `clients`, either the client with the results of its submissions or want of memory; the outer Err is want of memory for the list.
pub fn serve_each<'r, S: Session + Send + Sync, R: Threads + Wait + Sync>(
    rt: &R,
    alloc: Global,
    shared: &Shared<'r, S>,
    clients: Vec<Client<'r, S>>,
    submits: &[Submission],
) -> Result<Vec<Result<Served<'r, S>, AllocError>>, AllocError>
    requires fresh { All (λ (client : Seen). client.tickets ≡ 0) clients.items }
    requires named { All (λ (what : Submission). AreKnown (is_hosted S.topology) (parties_in_what what.what)) submits.now }
    ensures many { IfOk result (λ all. vec_len all ≡ vec_len clients.entry) }
    ensures each { IfOk result (λ all. (p : ℕ) (client : Seen) (one : _) → slice_get clients.entry.items p ≡ Some client → slice_get all.items p ≡ Some one
        → IfOk one (λ served. IsServed S.machine S.why shared.now.round.time shared.now.round.paused client.list submits.now client.me
        served.client served.results)) }
{
    thread::map_vec(
        rt,
        clients,
        &|client: Client<S>| -> Result<Served<S>, AllocError>
            requires { (client.tickets ≡ 0) × All (λ (what : Submission). AreKnown (is_hosted S.topology) (parties_in_what what.what)) submits.now }
            ensures { IfOk result (λ served. IsServed S.machine S.why shared.entry.now.round.time shared.entry.now.round.paused client.entry.list
                submits.entry.now client.entry.me served.client served.results) }
        { serve(rt, alloc, shared, client, submits) },
    )
}

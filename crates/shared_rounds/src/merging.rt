//! Results in the order of the script.
ghost use Rattle.std.specs.Prelude.{◌≡◌, ◌≢◌, ◌<◌, ◌∷◌, [], ℕ, All, IfNone, IfOk, IfSome, length, vec_len};
ghost use Rattle.ledger_terms.specs.declared.submission.Submission.{Submission};
ghost use Rattle.ledger_model.specs.Terms.{ParticipantId};
ghost use Rattle.prepare_request.specs.declared.submit_fault.SubmitFault.{SubmitFault};
ghost use Rattle.threads_model.specs.Merging.{Merging};
ghost use Rattle.world_model.specs.Rounds.{Results};
ghost use Rattle.world_play.specs.Results.{IsPlainResult, results_of};
ghost use Rattle.shared_rounds.specs.Queues.{AreQueuesOf, queue_at, queued};

use client_threads::ResultQueue;
use ledger_terms::{ParticipantId, Submission};
use node_core::{SubmitResult, SubmitResultList};
use std::alloc::{AllocError, Global};

// Takes the first result of the participant's queue out; None where the queue is empty.
fn next_slice(queues: &mut [ResultQueue], participant: ParticipantId) -> Option<SubmitResult>
    requires there { participant < length queues.old }
    ensures some { IfSome result (λ first. queue_at queues.old participant ≡ first ∷ queue_at queues.new participant) }
    ensures none { IfNone result (queue_at queues.old participant ≡ []) }
    ensures others { (p : ℕ) → participant ≢ p → queue_at queues.new p ≡ queue_at queues.old p }
    ensures many { length queues.new ≡ length queues.old }
{
    queues[participant.0 as usize].pop()
}

// The same of a list.
fn next_of(queues: &mut Vec<ResultQueue>, participant: ParticipantId) -> Option<SubmitResult>
    requires there { participant < vec_len queues.old }
    ensures some { IfSome result (λ first. queue_at queues.old.items participant ≡ first ∷ queue_at queues.new.items participant) }
    ensures none { IfNone result (queue_at queues.old.items participant ≡ []) }
    ensures others { (p : ℕ) → participant ≢ p → queue_at queues.new.items p ≡ queue_at queues.old.items p }
    ensures many { vec_len queues.new ≡ vec_len queues.old }
{
    next_slice(queues.as_mut_slice(), participant)
}

/// The results of these submissions in the order of the submissions. `queues` has one queue for each participant, of the results of its submissions in
/// their order, and each result is taken from its participant's queue. An Err is want of memory.
pub fn in_order(
    alloc: Global,
    submits: &[Submission],
    queues: Vec<ResultQueue>,
) -> Result<SubmitResultList, AllocError>
    requires queues { AreQueuesOf submits.now queues.items }
    requires there { All (λ (what : Submission). what.participant < vec_len queues) submits.now }
    ensures many { IfOk result (λ results. length results ≡ length submits.now) }
    ensures plain { IfOk result (All IsPlainResult) }
    ensures merged { IfOk result (λ results. (left : ParticipantId → Results SubmitFault)
        × Merging submits.now (queued submits.now queues.items) left (results_of submits.now results) []) }
{
    let mut queues = queues;
    let mut results = SubmitResultList::new(alloc);
    'submits: for what in submits {
        let Some(first) = next_of(&mut queues, what.participant) else {
            unreachable!();
        };
        results.push(first)?;
    }
    Ok(results)
}

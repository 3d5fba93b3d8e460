//! What comes of one submission.
ghost use Rattle.std.specs.Prelude.{◌≡◌, ◌+◌, ◌≤◌, ◌∷◌, [], Some, IfOk};
ghost use Rattle.lang_eval.specs.Named.{AreKnown};
ghost use Rattle.sealed_form.specs.Within.{is_hosted};
ghost use Rattle.node_core.specs.declared.submit_result.SubmitResult.TheVariants.{Sent};
ghost use Rattle.prepare_request.specs.Causes.{HoldsNoMemory};
ghost use Rattle.prepare_request.specs.Within.{parties_in_what};
ghost use Rattle.threads_model.specs.Inputs.{is_sent, one_if};
ghost use Rattle.threads_model.specs.Clients.{ClientAnswers};
ghost use Rattle.world_play.specs.Results.{IsPlainResult, result_of};
ghost use Rattle.sync_shared.specs.Answers.{fault_of, refused_at};
ghost use mathlib.Core.List.{IsPrefix};

use ledger_terms::Submission;
use node_core::{SubmitFault, SubmitRefusal, SubmitResult};
use std::alloc::AllocError;
use std::sync::Wait;
use sync_shared::{Client, Session, Shared, Ticket};

// The result of a request that was sent. Its client asks once what became of it.
fn sent<'r, S: Session, R: Wait>(
    rt: &R,
    shared: &Shared<'r, S>,
    client: &mut Client<'r, S>,
    ticket: Ticket<'r>,
) -> Result<SubmitResult, AllocError>
    requires ticket { (ticket.row ≡ S.history) × (ticket.me ≡ client.old.me) }
    requires base { S.bases client.old.me ≤ ticket.place }
    ensures sent { IfOk result (λ answer. answer ≡ Sent ticket.entry.place ticket.entry.read_to) }
    ensures seen { IsPrefix client.old.list client.new.list }
    ensures client { (client.new.tickets ≡ client.old.tickets) × (client.new.me ≡ client.old.me) }
{
    let mut ticket = ticket;
    shared.completion(rt, client, &mut ticket)?;
    Ok(SubmitResult::Sent {
        place: ticket.place(),
        read_to: ticket.read_to(),
    })
}

// The result where nothing was sent. Want of memory is no result of a submission.
fn refused(refusal: SubmitRefusal) -> Result<SubmitResult, AllocError>
    requires plain { HoldsNoMemory refusal.fault }
    ensures refused { IfOk result (λ answer. refused_at refusal.read_to (fault_of refusal.fault) ≡ Some (result_of answer)) }
    ensures unsent { IfOk result (λ answer. one_if (is_sent (result_of answer)) ≡ 0) }
    ensures plain { IfOk result IsPlainResult }
{
    let SubmitRefusal { fault, read_to } = refusal;
    match fault {
        SubmitFault::Memory => Err(AllocError),
        fault => Ok(SubmitResult::Refused { fault, read_to }),
    }
}

/// Hands in the submission, which has to be of the client's participant, and may name only parties for which somebody confirms. The result has the
/// place of the request that was sent, or why none was. After a request was sent the client asks once what became of it, which isn't told. An Err is
/// want of memory, at either step, so the request may have been sent. `rt` is what the thread waits by at the locks.
pub fn answer<'r, S: Session, R: Wait>(
    rt: &R,
    shared: &Shared<'r, S>,
    client: &mut Client<'r, S>,
    what: &Submission,
) -> Result<SubmitResult, AllocError>
    requires mine { what.now.participant ≡ client.old.me }
    requires named { AreKnown (is_hosted S.topology) (parties_in_what what.now.what) }
    ensures answers { IfOk result (λ answer. ClientAnswers S.machine S.why shared.now.round.time shared.now.round.paused client.old.list
        ((what.now, result_of answer) ∷ []) client.new.list) }
    ensures tickets { IfOk result (λ answer. client.new.tickets ≡ client.old.tickets + one_if (is_sent (result_of answer))) }
    ensures me { client.new.me ≡ client.old.me }
    ensures plain { IfOk result IsPlainResult }
{
    match shared.submit(rt, client, what) {
        Ok(ticket) => sent(rt, shared, client, ticket),
        Err(refusal) => refused(refusal),
    }
}

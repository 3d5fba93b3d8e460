//! Copies of what messages hold.
ghost use Rattle.std.specs.Prelude.{◌≡◌, ◌++◌, IfOk, OnOk};
ghost use Rattle.node_core.specs.Completion.{of_decision};

use crate::completion::Completion;
use canton_model::{Decision, Response, SharedBytes, ViewVerdict, ViewVerdictList};
use ledger_terms::Exact;
use node_state::{Item, ItemWhat, ResponseList};
use std::alloc::{AllocError, Global};

fn copy_verdicts(alloc: Global, verdicts: &[ViewVerdict]) -> Result<ViewVerdictList, AllocError>
    ensures { IfOk result (λ copy. copy ≡ verdicts.now) }
{
    let mut copy = ViewVerdictList::new(alloc);
    for verdict in verdicts {
        let view = verdict.view.copied()?;
        copy.push(ViewVerdict {
            view,
            verdict: verdict.verdict,
        })?;
    }
    Ok(copy)
}

/// A copy of a response.
pub fn copy_response(alloc: Global, response: &Response) -> Result<Response, AllocError>
    ensures { IfOk result (λ copy. copy ≡ response.now) }
{
    let verdicts = copy_verdicts(alloc, response.verdicts.as_slice())?;
    Ok(Response {
        from: response.from,
        request: response.request,
        verdicts,
    })
}

// The same bytes, where there are some, with no copy.
fn shared(bytes: &Option<SharedBytes>) -> Result<Option<SharedBytes>, AllocError>
    ensures { IfOk result (λ shared. shared ≡ bytes.now) }
{
    match bytes {
        Some(bytes) => Ok(Some(bytes.clone()?)),
        None => Ok(None),
    }
}

fn copy_what(what: &ItemWhat) -> Result<ItemWhat, AllocError>
    ensures { IfOk result (λ copy. copy ≡ what.now) }
{
    match what {
        ItemWhat::Nothing => Ok(ItemWhat::Nothing),
        ItemWhat::Request {
            sender,
            command,
            root,
            seen,
            confirmed,
            envelope,
        } => Ok(ItemWhat::Request {
            sender: *sender,
            command: *command,
            root: *root,
            seen: seen.copied()?,
            confirmed: confirmed.copied()?,
            envelope: shared(envelope)?,
        }),
        ItemWhat::Verdict(verdict) => Ok(ItemWhat::Verdict(verdict.clone()?)),
    }
}

/// A copy of an item, which shares the bytes of the envelope.
pub fn copy_item(item: &Item) -> Result<Item, AllocError>
    ensures { IfOk result (λ copy. copy ≡ item.now) }
{
    let what = copy_what(&item.what)?;
    Ok(Item {
        time: item.time,
        what,
    })
}

/// Puts copies of the responses behind those in `copies`. After want of memory some may be missing.
pub fn push_copies(
    alloc: Global,
    responses: &[Response],
    copies: &mut ResponseList,
) -> Result<(), AllocError>
    ensures { OnOk result (copies.new ≡ copies.old ++ responses.now) }
{
    for response in responses {
        copies.push(copy_response(alloc, response)?)?;
    }
    Ok(())
}

/// Copies of responses.
pub fn copy_responses(alloc: Global, responses: &[Response]) -> Result<ResponseList, AllocError>
    ensures { IfOk result (λ copies. copies ≡ responses.now) }
{
    let mut copies = ResponseList::new(alloc);
    push_copies(alloc, responses, &mut copies)?;
    Ok(copies)
}

/// What a participant that has read so many entries (`read_to`) says of its own request on which this decision came.
pub fn completion_by(decision: &Decision, read_to: u64) -> Result<Completion, AllocError>
    ensures { IfOk result (λ completion. completion ≡ of_decision read_to decision.now) }
{
    match decision {
        Decision::Approved => Ok(Completion::Approved { read_to }),
        Decision::Rejected { from, view, reason } => Ok(Completion::Rejected {
            read_to,
            from: *from,
            view: view.copied()?,
            reason: *reason,
        }),
        Decision::TimedOut { missing } => Ok(Completion::TimedOut {
            read_to,
            missing: missing.copied()?,
        }),
    }
}

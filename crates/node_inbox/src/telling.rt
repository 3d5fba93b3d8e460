//! What comes of a verdict before it is read.
ghost use Rattle.std.specs.Prelude.{◌≡◌, IfOk, IfNone, IfSome, None, Some, [], if◌then◌else◌};
ghost use Rattle.canton_model.specs.Inbox.{notice_at};
ghost use Rattle.canton_model.specs.Timeline.{is_approval, Decided, kind_of};
ghost use Rattle.framed_form.specs.FramedReading.{framed_reading};
ghost use Rattle.node_inbox.specs.Coming.{IsTelling, is_told};
ghost use Rattle.node_inbox.specs.Items.{model_items};
ghost use Rattle.node_inbox.specs.Kept.{IsInbox};

use crate::change_lists::changes_copy;
use crate::items::request_at;
use crate::kept_items::KeptItems;
use canton_model::{Decision, Outcome, Verdict};
use confirm_reply::Setup;
use inbox_registry::{Change, Registry};
use ledger_terms::ParticipantId;
use std::alloc::{AllocError, Global};

/// A verdict that comes on a request that was received: the outcome by it, where it is the first on its request, and what it then
/// changes.
#[derive(Drop)]
pub struct ComingVerdict {
    pub verdict: Verdict,
    pub first: Option<Outcome>,
    pub changes: Vec<Change>,
}

fn outcome_by(decision: &Decision) -> Outcome
    ensures { result ≡ kind_of (Decided decision.now) }
{
    match decision {
        Decision::Approved => Outcome::Approved,
        Decision::Rejected { .. } => Outcome::Rejected,
        Decision::TimedOut { .. } => Outcome::TimedOut,
    }
}

fn is_approval(decision: &Decision) -> bool
    ensures { result ≡ is_approval (Some decision.now) }
{
    match decision {
        Decision::Approved => true,
        Decision::Rejected { .. } => false,
        Decision::TimedOut { .. } => false,
    }
}

// Whether a verdict came on the request.
fn is_told(outcome: Option<Outcome>) -> bool
    ensures { result ≡ is_told outcome }
{
    match outcome {
        Some(Outcome::Undecided) => false,
        Some(Outcome::Approved) => true,
        Some(Outcome::Rejected) => true,
        Some(Outcome::TimedOut) => true,
        Some(Outcome::Expired) => false,
        None => false,
    }
}

fn copy_of(verdict: &Verdict) -> Result<Verdict, AllocError>
    ensures { IfOk result (λ copy. copy ≡ verdict.now) }
{
    let copy = verdict.clone()?;
    Ok(copy)
}

// What a first verdict changes, where an approval makes these changes.
fn changes_by(
    alloc: Global,
    decision: &Decision,
    changes: &[Change],
) -> Result<Vec<Change>, AllocError>
    ensures { IfOk result (λ made. made.items ≡ (if is_approval (Some decision.now) then changes.now else [])) }
{
    if is_approval(decision) {
        changes_copy(alloc, changes)
    } else {
        Ok(Vec::new(alloc))
    }
}

/// What comes of a verdict before it is put into the inbox of participant `me`, and none exactly where the verdict's request wasn't received. `setup`
/// and `me` are there for the contract alone.
pub fn telling(
    alloc: Global,
    setup: &Setup,
    me: ParticipantId,
    items: &KeptItems,
    registry: &Registry,
    verdict: &Verdict,
) -> Result<Option<ComingVerdict>, AllocError>
    requires { IsInbox setup.now.topology setup.now.checked me items.now.items registry.now }
    ensures none { IfOk result (λ o. IfNone o (notice_at (model_items items.now.items) verdict.now.request ≡ None)) }
    ensures some { IfOk result (λ o. IfSome o (λ coming.
        IsTelling (framed_reading setup.now.topology setup.now.checked) (model_items items.now.items) verdict.now coming)) }
{
    let Some(kept) = request_at(items, verdict.request) else {
        return Ok(None);
    };
    let told = copy_of(verdict)?;
    if is_told(registry.outcome(verdict.request)) {
        return Ok(Some(ComingVerdict {
            verdict: told,
            first: None,
            changes: Vec::new(alloc),
        }));
    }
    let changes = changes_by(alloc, &verdict.decision, kept.changes.as_slice())?;
    Ok(Some(ComingVerdict {
        verdict: told,
        first: Some(outcome_by(&verdict.decision)),
        changes,
    }))
}

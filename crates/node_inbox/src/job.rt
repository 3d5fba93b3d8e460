//! The check that a participant owes to a request.
ghost use Rattle.std.specs.Prelude.{◌≡◌, ◌<◌, true, IfOk, length};
ghost use Rattle.framed_form.specs.FramedReading.{framed_reading};
ghost use Rattle.pruned_inbox.specs.Start.{Start};
ghost use Rattle.world_model.specs.Node.{owes_at};
ghost use Rattle.validate_job.specs.Owed.{owed_on_each};
ghost use Rattle.node_inbox.specs.InboxState.{owed_kept};
ghost use Rattle.node_inbox.specs.Items.{model_items};
ghost use Rattle.node_inbox.specs.JobInput.{input_of};
ghost use Rattle.node_inbox.specs.Kept.{AreKept};

use crate::items::{request_at, time_at};
use crate::kept_item::KeptRequest;
use crate::kept_items::KeptItems;
use confirm_reply::{CheckInput, IdFactsList, Setup};
use ledger_terms::{Exact, ParticipantId};
use std::alloc::{AllocError, Global};
use validate_job::ValidateJob;

fn copy_facts(alloc: Global, facts: &IdFactsList) -> Result<IdFactsList, AllocError>
    ensures { IfOk result (λ copy. copy ≡ facts.now) }
{
    let mut copy = IdFactsList::with_room(alloc, facts.len())?;
    for fact in facts.as_slice() {
        copy.push(*fact)?;
    }
    Ok(copy)
}

// What the request is checked by.
fn input_of<'s>(
    alloc: Global,
    setup: &'s Setup,
    me: ParticipantId,
    time: u64,
    kept: &KeptRequest,
) -> Result<CheckInput<'s>, AllocError>
    ensures { IfOk result (λ input. input ≡ input_of setup.entry me time kept.now) }
{
    let shown = kept.offer.shown()?;
    let facts = copy_facts(alloc, &kept.facts)?;
    Ok(CheckInput {
        setup,
        me,
        sender: kept.sender,
        time,
        shown,
        facts,
    })
}

/// The check that participant `me` owes to the request at a place, by what it knew when it had read that entry.
pub fn job<'s>(
    alloc: Global,
    setup: &'s Setup,
    me: ParticipantId,
    items: &KeptItems,
    place: u64,
) -> Result<ValidateJob<'s>, AllocError>
    requires kept { (start : Start) × AreKept setup.now.topology setup.now.checked me start items.now.items }
    requires owes { owes_at (framed_reading setup.now.topology setup.now.checked) me (model_items items.now.items) place ≡ true }
    ensures place { IfOk result (λ job. job.given.place ≡ place) }
    ensures left { IfOk result (λ job. job.left ≡ length job.given.views) }
    ensures some { IfOk result (λ job. 0 < job.left) }
    ensures owed { IfOk result (λ job. (start : Start) → AreKept setup.now.topology setup.now.checked me start items.now.items
        → owed_on_each job.given.input job.given.views
        ≡ owed_kept (framed_reading setup.now.topology setup.now.checked) setup.now.topology.params me start (model_items items.now.items) place) }
{
    let Some(kept) = request_at(items, place) else {
        unreachable!()
    };
    let input = input_of(alloc, setup, me, time_at(items, place), kept)?;
    let views = kept.confirmed.copied()?;
    Ok(ValidateJob::new(input, place, views))
}

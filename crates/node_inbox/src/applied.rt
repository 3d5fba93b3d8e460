//! What the approved requests open.
ghost use Rattle.std.specs.Prelude.{◌≡◌, ◌++◌, true, IfOk, IfSome, OnOk, option_copied};
ghost use Rattle.canton_model.specs.Inbox.{moments, opened_at, part_if, parts_below};
ghost use Rattle.canton_model.specs.Timeline.{is_approved_in};
ghost use Rattle.request_track.specs.Pairs.{outcome_at};
ghost use Rattle.node_inbox.specs.Approved.{KeepChanges, TellsOutcomes, approved_at, is_approved, roots_kept};
ghost use Rattle.node_inbox.specs.Items.{model_items};
ghost use Rattle.node_inbox.specs.Offers.{opened_changes};
ghost use Rattle.node_inbox.specs.Places.{AreApproved, parts_at};

use crate::actions::roots_offered;
use crate::approved_places::ApprovedPlaces;
use crate::items::request_at;
use crate::kept_item::KeptRequest;
use crate::kept_items::KeptItems;
use canton_model::Outcome;
use confirm_reply::Setup;
use inbox_registry::Registry;
use ledger_model::{Commit, CommitList};
use ledger_terms::ActionNodeList;
use std::alloc::{AllocError, Global};

/// Whether the request at a place is approved, by what was read. It is false where no request is tracked: where none was received, and below the base,
/// where those that were are forgotten.
pub fn is_approved(registry: &Registry, place: u64) -> bool
    ensures { result ≡ is_approved (outcome_at registry.now.tracking.pairs place) }
{
    match registry.outcome(place) {
        Some(Outcome::Approved) => true,
        Some(Outcome::Undecided) => false,
        Some(Outcome::Rejected) => false,
        Some(Outcome::TimedOut) => false,
        Some(Outcome::Expired) => false,
        None => false,
    }
}

// The request that was received at a place.
fn opened_at(items: &KeptItems, place: u64) -> Option<&KeptRequest>
    requires { KeepChanges items.now.items }
    ensures exact { roots_kept (option_copied result) ≡ opened_at (model_items items.now.items) place }
    ensures changes { IfSome result (λ kept. kept.now.changes.items ≡ opened_changes kept.now.offer) }
{
    request_at(items, place)
}

/// The request that was received at a place, where it is approved by what was read, and else none. `setup` is there for the contract alone.
pub fn approved_at<'i>(
    setup: &Setup,
    items: &'i KeptItems,
    registry: &Registry,
    place: u64,
) -> Option<&'i KeptRequest>
    requires told { TellsOutcomes setup.now.topology.params (model_items items.now.items) registry.now }
    requires kept { KeepChanges items.now.items }
    ensures exact { roots_kept (option_copied result) ≡ approved_at (model_items items.now.items) place }
    ensures changes { IfSome result (λ kept. kept.now.changes.items ≡ opened_changes kept.now.offer) }
{
    // most places have no request, and an item is found sooner than an outcome
    let kept = opened_at(items, place)?;
    if is_approved(registry, place) {
        Some(kept)
    } else {
        None
    }
}

/// Puts trees of actions behind the commits, as the commit of a place. Where there are no trees, or memory is wanting, nothing is put there.
pub fn push_commit(
    place: u64,
    roots: ActionNodeList,
    commits: &mut CommitList,
) -> Result<(), AllocError>
    ensures { OnOk result (commits.new ≡ commits.old ++ part_if true place roots) }
{
    if roots.len() > 0 {
        commits.push(Commit { place, roots })?;
    }
    Ok(())
}

// The request at a place, where it is approved and something is opened of it.
fn push_approved(
    setup: &Setup,
    items: &KeptItems,
    registry: &Registry,
    place: u64,
    commits: &mut CommitList,
) -> Result<(), AllocError>
    requires told { TellsOutcomes setup.now.topology.params (model_items items.now.items) registry.now }
    requires kept { KeepChanges items.now.items }
    ensures { OnOk result (commits.new ≡ commits.old
        ++ part_if (is_approved_in place (moments (model_items items.now.items))) place (opened_at (model_items items.now.items) place)) }
{
    match approved_at(setup, items, registry, place) {
        Some(kept) => {
            let roots = roots_offered(*commits.allocator(), &kept.offer)?;
            push_commit(place, roots, commits)
        }
        None => Ok(()),
    }
}

// What is opened of the request at a place.
fn push_opened(items: &KeptItems, place: u64, commits: &mut CommitList) -> Result<(), AllocError>
    requires { KeepChanges items.now.items }
    ensures { OnOk result (commits.new ≡ commits.old ++ part_if true place (opened_at (model_items items.now.items) place)) }
{
    match opened_at(items, place) {
        Some(kept) => {
            let roots = roots_offered(*commits.allocator(), &kept.offer)?;
            push_commit(place, roots, commits)
        }
        None => Ok(()),
    }
}

// What is opened of the requests at these places.
fn opened_of(alloc: Global, items: &KeptItems, places: &[u64]) -> Result<CommitList, AllocError>
    requires { KeepChanges items.now.items }
    ensures { IfOk result (λ commits. commits ≡ parts_at (model_items items.now.items) places.now) }
{
    let mut commits = CommitList::new(alloc);
    for place in places {
        push_opened(items, *place, &mut commits)?;
    }
    Ok(commits)
}

/// The commits of the approved requests below the place `end`, as they are opened, without those of requests of which nothing is opened. `approved` has
/// the places of all approved requests below its `below`: where that is at most `end` only the places from `below` on are gone through, and else all
/// from 0 on. `setup` is there for the contract alone.
pub fn applied(
    alloc: Global,
    setup: &Setup,
    items: &KeptItems,
    registry: &Registry,
    approved: &ApprovedPlaces,
    end: u64,
) -> Result<CommitList, AllocError>
    requires told { TellsOutcomes setup.now.topology.params (model_items items.now.items) registry.now }
    requires kept { KeepChanges items.now.items }
    requires approved { AreApproved setup.now.topology.params (model_items items.now.items) approved.now }
    ensures { IfOk result (λ commits. commits ≡ parts_below (model_items items.now.items) end) }
{
    let none = ApprovedPlaces::new(alloc);
    let known = approved.not_behind(&none, end);
    let mut commits = opened_of(alloc, items, known.places.as_slice())?;
    'places: for place in known.below..end {
        push_approved(setup, items, registry, place, &mut commits)?;
    }
    Ok(commits)
}

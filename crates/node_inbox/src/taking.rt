//! What the approved requests open, taken out of an inbox.
ghost use Rattle.std.specs.Prelude.{◌≡◌, ◌++◌, IfOk, OnOk};
ghost use Rattle.canton_model.specs.Inbox.{parts_below};
ghost use Rattle.request_track.specs.Pairs.{outcome_at};
ghost use Rattle.view_split.specs.Placed.{placed_forest};
ghost use Rattle.view_split.specs.SeenViews.{put_back};
ghost use Rattle.node_inbox.specs.Approved.{TellsOutcomes, is_approved, part_of};
ghost use Rattle.node_inbox.specs.Items.{model_items};
ghost use Rattle.node_inbox.specs.Offers.{roots_offered};

use crate::actions::roots_of;
use crate::applied::{is_approved, push_commit};
use crate::kept_item::{KeptContent, KeptRequest};
use crate::kept_items::KeptItems;
use crate::kept_offer::KeptOffer;
use blind_tree::PlacedViewList;
use confirm_reply::{Setup, SharedTree};
use inbox_registry::Registry;
use ledger_model::CommitList;
use ledger_terms::ActionNodeList;
use std::alloc::{AllocError, Global};
use view_split::into_assembled;

// The trees of all views that are opened, out of the views' own actions.
fn roots_out_of(alloc: Global, views: PlacedViewList) -> Result<ActionNodeList, AllocError>
    ensures { IfOk result (λ roots. roots ≡ put_back (placed_forest views)) }
{
    let mut roots = ActionNodeList::new(alloc);
    'views: for placed in views.into_vec() {
        roots.push(into_assembled(alloc, placed.view)?)?;
    }
    Ok(roots)
}

// The trees of actions of an opened tree: moved out of it, or copied where somebody else looks at it.
fn roots_taken(alloc: Global, tree: SharedTree) -> Result<ActionNodeList, AllocError>
    ensures { IfOk result (λ roots. roots ≡ put_back (placed_forest tree.views)) }
{
    match tree.into_opened() {
        Ok(opened) => roots_out_of(alloc, opened.views),
        Err(shared) => roots_of(alloc, &shared.opened().views),
    }
}

// The trees that an offer opens, out of the offer.
fn offer_taken(alloc: Global, offer: KeptOffer) -> Result<ActionNodeList, AllocError>
    ensures { IfOk result (λ roots. roots ≡ roots_offered offer) }
{
    match offer {
        KeptOffer::Mismatch => Ok(ActionNodeList::new(alloc)),
        KeptOffer::Missing => Ok(ActionNodeList::new(alloc)),
        KeptOffer::Open(tree) => roots_taken(alloc, tree),
    }
}

// Puts the commit of the item at a place behind the others, where the item is a request that is approved and something is opened of it.
fn push_taken(
    registry: &Registry,
    place: u64,
    content: KeptContent,
    commits: &mut CommitList,
) -> Result<(), AllocError>
    ensures { OnOk result (commits.new ≡ commits.old ++ part_of (is_approved (outcome_at registry.now.tracking.pairs place)) place content) }
{
    match content {
        KeptContent::Received(kept) => {
            if !is_approved(registry, place) {
                return Ok(());
            }
            let KeptRequest { offer, .. } = kept.into_request();
            let roots = offer_taken(*commits.allocator(), offer)?;
            push_commit(place, roots, commits)
        }
        KeptContent::Told(_) => Ok(()),
        KeptContent::Nothing => Ok(()),
    }
}

/// The commits of the approved requests below the place `end`, as they are opened, without those of which nothing is. They are made of the items
/// themselves: actions that nobody else looks at are moved and not copied. `setup` is there for the contract alone.
pub fn into_applied(
    setup: &Setup,
    items: KeptItems,
    registry: &Registry,
    end: u64,
) -> Result<CommitList, AllocError>
    requires { TellsOutcomes setup.now.topology.params (model_items items.items) registry.now }
    ensures { IfOk result (λ commits. commits ≡ parts_below (model_items items.items) end) }
{
    let mut commits = CommitList::new(*items.allocator());
    let (base, kept) = items.into_kept();
    if end < base {
        return Ok(commits);
    }
    let mut place = base;
    'items: for item in kept {
        if place >= end {
            break;
        }
        push_taken(registry, place, item.content, &mut commits)?;
        place += 1;
    }
    Ok(commits)
}

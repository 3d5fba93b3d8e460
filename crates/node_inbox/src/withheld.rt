//! Which approved requests a participant has no complete envelope of.
ghost use Rattle.std.specs.Prelude.{◌≡◌, ◌++◌, ◌∷◌, [], IfOk, OnOk, Some, filter};
ghost use Rattle.canton_model.specs.Inbox.{is_kept_from, is_withheld_in, withheld_below};
ghost use Rattle.node_inbox.specs.Approved.{TellsOutcomes};
ghost use Rattle.node_inbox.specs.Items.{model_items, notice_of};
ghost use Rattle.node_inbox.specs.Offers.{is_open};
ghost use Rattle.node_inbox.specs.Places.{AreApproved, is_kept_from_at, place_if};

use crate::applied::is_approved;
use crate::approved_places::ApprovedPlaces;
use crate::items::request_at;
use crate::kept_item::KeptRequest;
use crate::kept_items::KeptItems;
use crate::kept_offer::KeptOffer;
use confirm_reply::Setup;
use inbox_registry::Registry;
use ledger_terms::U64List;
use std::alloc::{AllocError, Global};

fn is_open(offer: &KeptOffer) -> bool
    ensures { result ≡ is_open offer.now }
{
    match offer {
        KeptOffer::Mismatch => false,
        KeptOffer::Missing => false,
        KeptOffer::Open(_) => true,
    }
}

// Whether the participant sees a view of a request, and its envelope isn't complete.
fn is_kept_from(kept: &KeptRequest) -> bool
    ensures { result ≡ is_kept_from (Some (notice_of kept.now)) }
{
    !kept.seen.is_empty() && !is_open(&kept.offer)
}

fn is_kept_from_at(items: &KeptItems, place: u64) -> bool
    ensures { result ≡ is_kept_from_at (model_items items.now.items) place }
{
    match request_at(items, place) {
        Some(kept) => is_kept_from(kept),
        None => false,
    }
}

fn is_withheld(setup: &Setup, items: &KeptItems, registry: &Registry, place: u64) -> bool
    requires { TellsOutcomes setup.now.topology.params (model_items items.now.items) registry.now }
    ensures { result ≡ is_withheld_in (model_items items.now.items) place }
{
    is_kept_from_at(items, place) && is_approved(registry, place)
}

fn push_if_kept_from(items: &KeptItems, place: u64, places: &mut U64List) -> Result<(), AllocError>
    ensures { OnOk result (places.new ≡ places.old ++ filter (is_kept_from_at (model_items items.now.items)) (place ∷ [])) }
{
    if is_kept_from_at(items, place) {
        places.push(place)?;
    }
    Ok(())
}

// Those of these places at which there is a request that the participant is kept from.
fn kept_from_among(alloc: Global, items: &KeptItems, among: &[u64]) -> Result<U64List, AllocError>
    ensures { IfOk result (λ places. places ≡ filter (is_kept_from_at (model_items items.now.items)) among.now) }
{
    let mut places = U64List::new(alloc);
    for place in among {
        push_if_kept_from(items, *place, &mut places)?;
    }
    Ok(places)
}

fn push_if_withheld(
    setup: &Setup,
    items: &KeptItems,
    registry: &Registry,
    place: u64,
    places: &mut U64List,
) -> Result<(), AllocError>
    requires { TellsOutcomes setup.now.topology.params (model_items items.now.items) registry.now }
    ensures { OnOk result (places.new ≡ places.old ++ place_if (is_withheld_in (model_items items.now.items) place) place) }
{
    if is_withheld(setup, items, registry, place) {
        places.push(place)?;
    }
    Ok(())
}

/// The withheld places below the place `end`, ascending. `approved` has the places of all approved requests below its `below`: where that is at most
/// `end` only the places from `below` on are gone through, and else all from 0 on. `setup` is there for the contract alone.
pub fn withheld(
    alloc: Global,
    setup: &Setup,
    items: &KeptItems,
    registry: &Registry,
    approved: &ApprovedPlaces,
    end: u64,
) -> Result<U64List, AllocError>
    requires told { TellsOutcomes setup.now.topology.params (model_items items.now.items) registry.now }
    requires approved { AreApproved setup.now.topology.params (model_items items.now.items) approved.now }
    ensures { IfOk result (λ places. places ≡ withheld_below (model_items items.now.items) end) }
{
    let none = ApprovedPlaces::new(alloc);
    let known = approved.not_behind(&none, end);
    let mut places = kept_from_among(alloc, items, known.places.as_slice())?;
    'places: for place in known.below..end {
        push_if_withheld(setup, items, registry, place, &mut places)?;
    }
    Ok(places)
}

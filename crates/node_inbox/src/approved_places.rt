//! The places of approved requests.
ghost use Rattle.std.specs.Prelude.{◌≡◌, ◌++◌, ◌+◌, ◌<◌, ◌≤◌, ◌^◌, ℕ, [], if◌then◌else◌, nat_le, OnErr, OnOk};
ghost use Rattle.request_track.specs.Pairs.{outcome_at};
ghost use Rattle.node_inbox.specs.Approved.{is_approved};
ghost use Rattle.node_inbox.specs.Places.{AreKeptIf, place_if, tracked_below};

use crate::applied::is_approved;
use inbox_registry::Registry;
use ledger_terms::U64List;
use std::alloc::{AllocError, Global};

/// The places of all approved requests below the place `below`, ascending.
#[derive(Drop)]
pub struct ApprovedPlaces {
    pub below: u64,
    pub places: U64List,
}

impl ApprovedPlaces {
    /// The places below place 0: there are none.
    pub fn new(alloc: Global) -> ApprovedPlaces
        ensures below { result.below ≡ 0 }
        ensures places { result.places ≡ [] }
    {
        ApprovedPlaces {
            below: 0,
            places: U64List::new(alloc),
        }
    }

    /// The places of an inbox that begins at the base `below` and so has received no request below it: there are none.
    pub fn at(alloc: Global, below: u64) -> ApprovedPlaces
        ensures below { result.below ≡ below }
        ensures places { result.places ≡ [] }
    {
        ApprovedPlaces {
            below,
            places: U64List::new(alloc),
        }
    }

    /// What becomes of these places when a verdict is read. Where `kept` is true, since its request isn't below `below`, they stay as they are. Else
    /// they may be false now and are gathered anew: there are no places then, and `below` is the participant's base, from below which the inbox has
    /// nothing. Takes no memory.
    pub fn keep_if(&mut self, kept: bool, base: u64)
        ensures { AreKeptIf kept base self.old self.new }
    {
        if !kept {
            *self = ApprovedPlaces::at(*self.places.allocator(), base);
        }
    }

    /// These places, where their `below` is at most the place `end`, and else `none`, for which callers give the places below 0 (`new`).
    pub fn not_behind<'a>(&'a self, none: &'a ApprovedPlaces, end: u64) -> &'a ApprovedPlaces
        ensures { result.now ≡ (if nat_le self.now.below end then self.now else none.now) }
    {
        if self.below <= end { self } else { none }
    }

    // Those below the place behind.
    fn pass(&mut self, registry: &Registry, place: u64) -> Result<(), AllocError>
        requires { place + 1 < 2 ^ 64 }
        ensures below { OnOk result (self.new.below ≡ place + 1) }
        ensures places { OnOk result (self.new.places
            ≡ self.old.places ++ place_if (is_approved (outcome_at registry.now.tracking.pairs place)) place) }
        ensures err { OnErr result (self.new ≡ self.old) }
    {
        if is_approved(registry, place) {
            self.places.push(place)?;
        }
        self.below = place + 1;
        Ok(())
    }
}

/// Adds the places of the approved requests from `below` on and below the place `end`, and moves `below` to `end`; it changes nothing where `below`
/// isn't less. After want of memory the places are those that were added until then, and `below` is the place at which memory ran out.
pub fn bring_up(
    approved: &mut ApprovedPlaces,
    registry: &Registry,
    end: u64,
) -> Result<(), AllocError>
    requires { approved.old.places ≡ tracked_below registry.now.tracking.pairs approved.old.below }
    ensures places { approved.new.places ≡ tracked_below registry.now.tracking.pairs approved.new.below }
    ensures within { (n : ℕ) → approved.old.below ≤ n → end ≤ n → approved.new.below ≤ n }
{
    for place in approved.below..end {
        approved.pass(registry, place)?;
    }
    Ok(())
}

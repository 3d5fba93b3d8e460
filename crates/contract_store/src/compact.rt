//! Released holds go out of the vector, and the others move towards its start.
ghost use Rattle.std.specs.Prelude.{◌≡◌, ◌+◌, ◌<◌, ◌≤◌, ℕ, true, List, Option, Some, if◌then◌else◌, IsSome, length, nat_eq};
ghost use Rattle.std.specs.Prelude.{slice_get, slice_set, vec_len, vec_capacity};
ghost use Rattle.std.specs.Str.{bytes_eq};
ghost use Rattle.indexmap.specs.IndexMap.{get, keys, spare};
ghost use Rattle.contract_store.specs.Leads.{row_behind, hold_behind};
ghost use Rattle.contract_store.specs.Holds.{holds_of, LeadsToHolds};
ghost use Rattle.contract_store.specs.Moved.{among, Moving};
ghost use Rattle.contract_store.specs.declared.hold.KeptHold.{KeptHold};

use crate::contract_places::ContractPlaces;
use crate::hold::{Hold, KeptHold};
use crate::holds::{place_behind, slot_at};
use crate::lookup::{hold_behind, put_hold};
use indexmap::IndexMap;
use ledger_terms::Hash;

// An index of the vector, where it is one of the first `to`, to which holds were moved; else None.
fn place_among(to: usize, place: Option<usize>) -> Option<usize>
    ensures { result ≡ among to place }
{
    match place {
        Some(at) => { if at < to { Some(at) } else { None } }
        None => None,
    }
}

// Lets the place of a request, which leads to a hold, lead to the one at the index `to`.
fn move_place(places: &mut IndexMap<u64, usize>, place: u64, to: usize)
    requires { IsSome (get nat_eq places.old place) }
    ensures places { (p : ℕ) → get nat_eq places.new p ≡ (if nat_eq place p then Some to else get nat_eq places.old p) }
    ensures spare { spare places.old ≤ spare places.new }
{
    if let Some(at) = places.get_mut(&place) {
        *at = to;
    }
}

// Moves a hold to the index `to`, behind those that were moved before it.
fn move_hold(
    slots: &mut Vec<KeptHold>,
    ids: &mut IndexMap<Hash, ContractPlaces>,
    places: &mut IndexMap<u64, usize>,
    hold: Hold,
    to: usize,
)
    requires within { to < vec_len slots.old }
    requires id { IsSome (get bytes_eq ids.old hold.id) }
    requires place { IsSome (get nat_eq places.old hold.place) }
    ensures slots { slots.new.items ≡ slice_set slots.old.items to (record {
      hold = hold;
      live = true;
      before_on = among to (hold_behind (get bytes_eq ids.old hold.id));
      before_at = among to (get nat_eq places.old hold.place);
    }) }
    ensures ids { (c : List ℕ) → hold_behind (get bytes_eq ids.new c) ≡ (if bytes_eq hold.id c then Some to else hold_behind (get bytes_eq ids.old c)) }
    ensures places { (p : ℕ) → get nat_eq places.new p ≡ (if nat_eq hold.place p then Some to else get nat_eq places.old p) }
    ensures rows { (c : List ℕ) → row_behind (get bytes_eq ids.new c) ≡ row_behind (get bytes_eq ids.old c) }
    ensures keys { keys ids.new ≡ keys ids.old }
    ensures len { vec_len slots.new ≡ vec_len slots.old }
    ensures capacity { vec_capacity slots.new ≡ vec_capacity slots.old }
    ensures spare { spare places.old ≤ spare places.new }
{
    let before_on = place_among(to, hold_behind(ids, &hold.id));
    let before_at = place_among(to, place_behind(places, hold.place));
    slots[to] = KeptHold {
        hold,
        live: true,
        before_on,
        before_at,
    };
    put_hold(ids, hold.id, Some(to));
    move_place(places, hold.place, to);
}

// Moves the hold at `next` to the index `to`, if it was not released. The result is how many were moved then.
fn move_next(
    slots: &mut Vec<KeptHold>,
    ids: &mut IndexMap<Hash, ContractPlaces>,
    places: &mut IndexMap<u64, usize>,
    next: usize,
    to: usize,
) -> usize
    requires within { next < vec_len slots.old }
    requires order { to ≤ next }
    requires there { (h : KeptHold) → slice_get slots.old.items next ≡ Some h → h.live ≡ true
        → IsSome (get bytes_eq ids.old h.hold.id) × IsSome (get nat_eq places.old h.hold.place) }
    ensures step { (held : List KeptHold)
        → Moving held next to slots.old.items (λ c. hold_behind (get bytes_eq ids.old c)) (λ p. get nat_eq places.old p)
        → Moving held (next + 1) result slots.new.items (λ c. hold_behind (get bytes_eq ids.new c)) (λ p. get nat_eq places.new p) }
    ensures rows { (c : List ℕ) → row_behind (get bytes_eq ids.new c) ≡ row_behind (get bytes_eq ids.old c) }
    ensures keys { keys ids.new ≡ keys ids.old }
    ensures len { vec_len slots.new ≡ vec_len slots.old }
    ensures capacity { vec_capacity slots.new ≡ vec_capacity slots.old }
    ensures spare { spare places.old ≤ spare places.new }
{
    let slot = slot_at(slots, next);
    if slot.live {
        move_hold(slots, ids, places, slot.hold, to);
        return to + 1;
    }
    to
}

// Takes all released holds out of the vector, and lets the maps lead to where the others are.
fn keep_live(
    slots: &mut Vec<KeptHold>,
    ids: &mut IndexMap<Hash, ContractPlaces>,
    places: &mut IndexMap<u64, usize>,
)
    requires { LeadsToHolds slots.old.items (λ c. hold_behind (get bytes_eq ids.old c)) (λ p. get nat_eq places.old p) }
    ensures leads { LeadsToHolds slots.new.items (λ c. hold_behind (get bytes_eq ids.new c)) (λ p. get nat_eq places.new p) }
    ensures holds { holds_of slots.new.items ≡ holds_of slots.old.items }
    ensures count { vec_len slots.new ≡ length (holds_of slots.new.items) }
    ensures rows { (c : List ℕ) → row_behind (get bytes_eq ids.new c) ≡ row_behind (get bytes_eq ids.old c) }
    ensures keys { keys ids.new ≡ keys ids.old }
    ensures len { vec_len slots.new ≤ vec_len slots.old }
    ensures capacity { vec_capacity slots.new ≡ vec_capacity slots.old }
    ensures spare { spare places.old ≤ spare places.new }
{
    let mut to = 0;
    for next in 0..slots.len() {
        to = move_next(slots, ids, places, next, to);
    }
    slots.truncate(to);
}

/// Takes the released holds out of the vector `slots` where they are more than the others, and else changes nothing; so on average it passes less than
/// two holds for each that was released. The maps of ids and of places then lead to where the others stand. `dead` is how many released ones the vector
/// has.
pub fn drop_released(
    slots: &mut Vec<KeptHold>,
    ids: &mut IndexMap<Hash, ContractPlaces>,
    places: &mut IndexMap<u64, usize>,
    dead: &mut usize,
)
    requires leads { LeadsToHolds slots.old.items (λ c. hold_behind (get bytes_eq ids.old c)) (λ p. get nat_eq places.old p) }
    requires count { dead.old + length (holds_of slots.old.items) ≡ vec_len slots.old }
    ensures leads { LeadsToHolds slots.new.items (λ c. hold_behind (get bytes_eq ids.new c)) (λ p. get nat_eq places.new p) }
    ensures holds { holds_of slots.new.items ≡ holds_of slots.old.items }
    ensures count { dead.new + length (holds_of slots.new.items) ≡ vec_len slots.new }
    ensures few { dead.new + dead.new ≤ vec_len slots.new }
    ensures rows { (c : List ℕ) → row_behind (get bytes_eq ids.new c) ≡ row_behind (get bytes_eq ids.old c) }
    ensures keys { keys ids.new ≡ keys ids.old }
    ensures len { vec_len slots.new ≤ vec_len slots.old }
    ensures capacity { vec_capacity slots.new ≡ vec_capacity slots.old }
    ensures spare { spare places.old ≤ spare places.new }
{
    if slots.len() - *dead < *dead {
        keep_live(slots, ids, places);
        *dead = 0;
    }
}

//! The holds, in a vector, and the chains through it.
ghost use Rattle.std.specs.Prelude.{◌≡◌, ◌≢◌, IsTrue, IsFalse, false, ◌+◌, ◌<◌, ◌≤◌, ℕ, true, [], ◌∷◌, ◌++◌, List, Some, Option, map, nat_eq};
ghost use Rattle.std.specs.Prelude.{◌^◌, if◌then◌else◌, IsSome, length, slice_get, slice_set, vec_len, vec_capacity};
ghost use Rattle.std.specs.Str.{bytes_eq};
ghost use Rattle.indexmap.specs.IndexMap.{get, keys, spare};
ghost use Rattle.contract_store.specs.Leads.{row_behind, hold_behind};
ghost use Rattle.contract_store.specs.Chains.{Link, above, NoneFrom, IsLast, IsLinked, Reaches, Chains};
ghost use Rattle.contract_store.specs.Holds.{link_on, link_at, holds_of, released, LeadsToHolds, Releasing};
ghost use Rattle.contract_store.specs.declared.hold.Hold.{Hold};
ghost use Rattle.contract_store.specs.declared.hold.KeptHold.{KeptHold};

use crate::contract_places::ContractPlaces;
use crate::hold::{Hold, KeptHold};
use crate::lookup::{hold_behind, put_hold};
use indexmap::IndexMap;
use ledger_terms::Hash;

/// The index of the last hold of the request at this place, and None where it has none.
pub fn place_behind(places: &IndexMap<u64, usize>, place: u64) -> Option<usize>
    ensures { result ≡ get nat_eq places.now place }
{
    places.get(&place).copied()
}

/// Lets the place of a request lead to the hold at the index `at`. Room was made for it, so it takes no memory.
pub fn put_place(places: &mut IndexMap<u64, usize>, place: u64, at: usize)
    requires { 0 < spare places.old }
    ensures places { (p : ℕ) → get nat_eq places.new p ≡ (if nat_eq place p then Some at else get nat_eq places.old p) }
    ensures spare { spare places.old ≤ spare places.new + 1 }
{
    let _ = places.insert(place, at).unwrap();
}

/// Puts one more hold at the end of the vector `slots`, to which the id of its contract and the place of its request then lead. Room was made for it,
/// so it takes no memory.
pub fn push_hold(
    slots: &mut Vec<KeptHold>,
    ids: &mut IndexMap<Hash, ContractPlaces>,
    places: &mut IndexMap<u64, usize>,
    hold: Hold,
)
    requires room { vec_len slots.old < vec_capacity slots.old }
    requires spare { 0 < spare places.old }
    requires ready { IsSome (get bytes_eq ids.old hold.id) }
    requires leads { LeadsToHolds slots.old.items (λ c. hold_behind (get bytes_eq ids.old c)) (λ p. get nat_eq places.old p) }
    ensures leads { LeadsToHolds slots.new.items (λ c. hold_behind (get bytes_eq ids.new c)) (λ p. get nat_eq places.new p) }
    ensures holds { holds_of slots.new.items ≡ holds_of slots.old.items ++ hold ∷ [] }
    ensures rows { (c : List ℕ) → row_behind (get bytes_eq ids.new c) ≡ row_behind (get bytes_eq ids.old c) }
    ensures keys { keys ids.new ≡ keys ids.old }
    ensures len { vec_len slots.new ≡ vec_len slots.old + 1 }
    ensures capacity { vec_capacity slots.old ≤ vec_capacity slots.new }
    ensures spare { spare places.old ≤ spare places.new + 1 }
{
    let at = slots.len();
    let before_on = hold_behind(ids, &hold.id);
    let before_at = place_behind(places, hold.place);
    slots
        .push(KeptHold {
            hold,
            live: true,
            before_on,
            before_at,
        })
        .unwrap();
    put_hold(ids, hold.id, Some(at));
    put_place(places, hold.place, at);
}

/// The kept hold at an index of the vector, whether it was released or not. The index has to be one of the vector's.
pub fn slot_at(slots: &Vec<KeptHold>, at: usize) -> KeptHold
    requires { at < vec_len slots.now }
    ensures { slice_get slots.now.items at ≡ Some result }
{
    slots[at]
}

// The index of the last hold on a contract that was not released, sought along its chain from `from` on towards the start. None where there is none.
fn last_live(slots: &Vec<KeptHold>, id: &Hash, from: Option<usize>) -> Option<usize>
    requires linked { IsLinked bytes_eq (map link_on slots.now.items) }
    requires reaches { Reaches bytes_eq (map link_on slots.now.items) id.now from }
    ensures { IsLast bytes_eq (map link_on slots.now.items) id.now result }
{
    let mut cursor = from;
    'back: while let Some(at) = cursor {
        let slot = slot_at(slots, at);
        if slot.live {
            return Some(at);
        }
        cursor = slot.before_on;
    }
    None
}

// Releases the hold at an index of the vector. Its contract then leads to the last hold on it that is left.
fn release_hold(slots: &mut Vec<KeptHold>, ids: &mut IndexMap<Hash, ContractPlaces>, at: usize)
    requires within { at < vec_len slots.old }
    requires on { Chains bytes_eq (map link_on slots.old.items) (λ c. hold_behind (get bytes_eq ids.old c)) }
    ensures slots { (h : KeptHold) → slice_get slots.old.items at ≡ Some h → slots.new.items ≡ slice_set slots.old.items at (record h { live = false }) }
    ensures on { Chains bytes_eq (map link_on slots.new.items) (λ c. hold_behind (get bytes_eq ids.new c)) }
    ensures rows { (c : List ℕ) → row_behind (get bytes_eq ids.new c) ≡ row_behind (get bytes_eq ids.old c) }
    ensures keys { keys ids.new ≡ keys ids.old }
    ensures len { vec_len slots.new ≡ vec_len slots.old }
    ensures capacity { vec_capacity slots.new ≡ vec_capacity slots.old }
{
    let slot = slot_at(slots, at);
    slots[at] = KeptHold {
        hold: slot.hold,
        live: false,
        before_on: slot.before_on,
        before_at: slot.before_at,
    };
    if leads_to(ids, &slot.hold.id, at) {
        let last = last_live(slots, &slot.hold.id, slot.before_on);
        put_hold(ids, slot.hold.id, last);
    }
}

// Whether the map leads from an id to the hold at this index.
fn leads_to(ids: &IndexMap<Hash, ContractPlaces>, id: &Hash, at: usize) -> bool
    ensures yes { IsTrue result → hold_behind (get bytes_eq ids.now id.now) ≡ Some at }
    ensures no { IsFalse result → hold_behind (get bytes_eq ids.now id.now) ≢ Some at }
{
    match hold_behind(ids, id) {
        Some(last) => last == at,
        None => false,
    }
}

// Counts one more released hold, if it was not released before.
fn count_dead(dead: &mut usize, live: bool)
    requires { (if live then 1 else 0) + dead.old < 2 ^ 63 }
    ensures { dead.new ≡ (if live then 1 else 0) + dead.old }
{
    *dead += usize::from(live);
}

// Releases the hold at an index of the vector, and gives the index of the one before it of the same request, None where it is the first.
fn release_next(
    slots: &mut Vec<KeptHold>,
    ids: &mut IndexMap<Hash, ContractPlaces>,
    dead: &mut usize,
    at: usize,
) -> Option<usize>
    requires within { at < vec_len slots.old }
    requires on { Chains bytes_eq (map link_on slots.old.items) (λ c. hold_behind (get bytes_eq ids.old c)) }
    requires linked { IsLinked nat_eq (map link_at slots.old.items) }
    requires count { dead.old + length (holds_of slots.old.items) ≡ vec_len slots.old }
    ensures below { above result ≤ at }
    ensures step { (place : ℕ) (left : List Hold) (places : ℕ → Option ℕ)
        → Releasing place left slots.old.items (λ c. hold_behind (get bytes_eq ids.old c)) places (Some at)
        → Releasing place left slots.new.items (λ c. hold_behind (get bytes_eq ids.new c)) places result }
    ensures count { dead.new + length (holds_of slots.new.items) ≡ vec_len slots.new }
    ensures rows { (c : List ℕ) → row_behind (get bytes_eq ids.new c) ≡ row_behind (get bytes_eq ids.old c) }
    ensures keys { keys ids.new ≡ keys ids.old }
    ensures len { vec_len slots.new ≡ vec_len slots.old }
    ensures capacity { vec_capacity slots.new ≡ vec_capacity slots.old }
{
    let slot = slot_at(slots, at);
    release_hold(slots, ids, at);
    count_dead(dead, slot.live);
    slot.before_at
}

/// Releases the holds of the request at `place`: they stay in the vector `slots` as released ones, the place leads to none any more, and the id of each
/// contract to the last hold on it that is left. `dead` counts all released ones that are in the vector.
pub fn release_place(
    slots: &mut Vec<KeptHold>,
    ids: &mut IndexMap<Hash, ContractPlaces>,
    places: &mut IndexMap<u64, usize>,
    dead: &mut usize,
    place: u64,
)
    requires leads { LeadsToHolds slots.old.items (λ c. hold_behind (get bytes_eq ids.old c)) (λ p. get nat_eq places.old p) }
    requires count { dead.old + length (holds_of slots.old.items) ≡ vec_len slots.old }
    ensures leads { LeadsToHolds slots.new.items (λ c. hold_behind (get bytes_eq ids.new c)) (λ p. get nat_eq places.new p) }
    ensures holds { holds_of slots.new.items ≡ released place (holds_of slots.old.items) }
    ensures count { dead.new + length (holds_of slots.new.items) ≡ vec_len slots.new }
    ensures rows { (c : List ℕ) → row_behind (get bytes_eq ids.new c) ≡ row_behind (get bytes_eq ids.old c) }
    ensures keys { keys ids.new ≡ keys ids.old }
    ensures len { vec_len slots.new ≡ vec_len slots.old }
    ensures capacity { vec_capacity slots.new ≡ vec_capacity slots.old }
    ensures spare { spare places.old ≤ spare places.new }
{
    let mut cursor = places.swap_remove(&place);
    'back: while let Some(at) = cursor {
        cursor = release_next(slots, ids, dead, at);
    }
}

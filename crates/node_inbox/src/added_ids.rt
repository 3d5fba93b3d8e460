//! The contracts with a hosted stakeholder that changes bring into a store.
ghost use Rattle.std.specs.Prelude.{◌≡◌, ◌++◌, ◌&&◌, ◌||◌, ◌≤◌, ℕ, [], List, not, IfOk, OnOk, length, map, take};
ghost use Rattle.std.specs.List.{list_any};
ghost use Rattle.std.specs.Str.{bytes_eq};
ghost use Rattle.indexmap.specs.IndexMap.{keys};
ghost use Rattle.contract_store.specs.Rows.{status_in};
ghost use Rattle.prepare_request.specs.Hosted.{is_among};
ghost use Rattle.framed_form.specs.FramedReading.{framed_reading};
ghost use Rattle.inbox_registry.specs.ChangeLists.{id_in};
ghost use Rattle.node_inbox.specs.AddedIds.{added_behind, added_if, are_new, creates_gone, is_new, is_on, is_unheard, is_unknown};

use confirm_reply::{Setup, has_hosted_stakeholder};
use contract_store::Store;
use inbox_registry::{Change, KeptStart};
use indexmap::IndexMap;
use ledger_model::Status;
use ledger_terms::{Hash, HashList, ParticipantId};
use prepare_request::HostedIds;
use std::alloc::{AllocError, Global};

// How many changes are compared one by one, which costs less than a map. The contracts of those behind them stand in a map.
const FEW_CHANGES: usize = 8;

fn is_unknown(status: Status) -> bool
    ensures { result ≡ is_unknown status }
{
    match status {
        Status::Unknown => true,
        Status::Active => false,
        Status::Consumed => false,
    }
}

// Whether a change is on the contract with this id.
fn is_on_one(changes: &[Change], id: &Hash) -> bool
    ensures { result ≡ list_any (is_on id.now) changes.now }
{
    changes.iter().any(|change| *id == change.known.id)
}

// Whether a contract is that of one of the first changes, or of a later one.
fn is_changed(first: &[Change], later: &IndexMap<Hash, ()>, id: &Hash) -> bool
    ensures { result ≡ is_among (map id_in first.now ++ keys later.now) id.now }
{
    is_on_one(first, id) || later.contains_key(id)
}

// Whether the store doesn't know a contract and no change before is on it.
fn is_unheard(store: &Store, first: &[Change], later: &IndexMap<Hash, ()>, id: &Hash) -> bool
    ensures { result ≡ is_unheard store.now.rows (map id_in first.now ++ keys later.now) id.now }
{
    is_unknown(store.status(id)) && !is_changed(first, later, id)
}

fn is_new(store: &Store, first: &[Change], later: &IndexMap<Hash, ()>, change: &Change) -> bool
    ensures { result ≡ is_new store.now.rows (map id_in first.now ++ keys later.now) change.now }
{
    change.is_create && is_unheard(store, first, later, &change.known.id)
}

fn add_if(
    setup: &Setup,
    me: ParticipantId,
    is_new: bool,
    change: &Change,
    ids: &mut HashList,
) -> Result<(), AllocError>
    ensures { OnOk result (ids.new ≡ ids.old
        ++ added_if (framed_reading setup.now.topology setup.now.checked) me is_new change.now) }
{
    if is_new && has_hosted_stakeholder(*ids.allocator(), setup, me, &change.known.instance)? {
        ids.push(change.known.id)?;
    }
    Ok(())
}

fn put_if(changed: &mut IndexMap<Hash, ()>, wanted: bool, id: Hash) -> Result<(), AllocError>
    ensures { OnOk result ((c : List ℕ) → is_among (keys changed.new) c ≡ ((wanted && bytes_eq id c) || is_among (keys changed.old) c)) }
{
    if wanted {
        let _ = changed.insert(id, ())?;
    }
    Ok(())
}

// Whether what was created before is new, and this change's contract, too, if it creates it.
fn all_new(before: bool, is_new: bool, change: &Change) -> bool
    ensures { result ≡ (before && (is_new || not change.now.is_create)) }
{
    before && (is_new || !change.is_create)
}

fn front(changes: &[Change], count: usize) -> &[Change]
    ensures { result.now ≡ take count changes.now }
{
    if count < changes.len() {
        &changes[..count]
    } else {
        changes
    }
}

/// The ids of the new contracts with a stakeholder hosted by `me` that these changes create, in order, for the caller to put among those that it
/// offers; and whether every contract that they create is new, so that neither the store, without these changes, nor a change before knows it. Where
/// one isn't, the inbox can no longer say that no contract was created twice.
pub fn added_ids(
    alloc: Global,
    setup: &Setup,
    me: ParticipantId,
    store: &Store,
    changes: &[Change],
) -> Result<(HashList, bool), AllocError>
    ensures ids { IfOk result (λ added. added.0 ≡ added_behind (framed_reading setup.now.topology setup.now.checked) me store.now.rows [] changes.now) }
    ensures new { IfOk result (λ added. added.1 ≡ are_new store.now.rows [] changes.now) }
{
    let mut ids = HashList::new(alloc);
    let mut all_are_new = true;
    let first = front(changes, FEW_CHANGES);
    let mut later = IndexMap::new(alloc);
    for at in 0..changes.len() {
        let change = &changes[at];
        let is_new = is_new(store, front(first, at), &later, change);
        add_if(setup, me, is_new, change, &mut ids)?;
        put_if(&mut later, at >= first.len(), change.known.id)?;
        all_are_new = all_new(all_are_new, is_new, change);
    }
    Ok((ids, all_are_new))
}

/// Whether one of these changes creates a contract that is gone by the start.
pub fn create_gone(start: &KeptStart, changes: &[Change]) -> bool
    ensures { result ≡ list_any (creates_gone start.now) changes.now }
{
    changes.iter().any(|change| change.is_create && start.is_gone(&change.known.id))
}

/// Puts `ids` among the ids of contracts with a hosted stakeholder, in the room that is there. Takes no memory.
pub fn put_ids(hosted: &mut HostedIds, ids: &HashList)
    requires { length ids.now ≤ hosted.old.spare }
    ensures { (c : List ℕ) → is_among hosted.new.ids c ≡ (is_among ids.now c || is_among hosted.old.ids c) }
{
    for id in ids.as_slice() {
        hosted.insert(*id);
    }
}

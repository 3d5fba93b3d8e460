//! What an inbox leaves at a place, to begin with there.
ghost use Rattle.std.specs.Prelude.{◌≡◌, ◌++◌, ◌∷◌, ◌≤◌, [], false, true, IfOk, OnOk, filter, insert, length, slice_get};
ghost use Rattle.ledger_terms.specs.Parties.{name_below, with_party, with_parties};
ghost use Rattle.node_inbox.specs.Leaving.{consumed_at, consumed_in, stays};
ghost use Rattle.node_inbox.specs.Listed.{active_row_of, listed, listed_at};

use crate::live_row::LiveRow;
use crate::live_rows::LiveRows;
use inbox_registry::KeptStart;
use ledger_terms::{ActiveRow, ActiveRowList, Exact, Hash, HashList, Known};
use std::alloc::{AllocError, Global};

fn push_if_stays(
    start: &KeptStart,
    created_at: u64,
    known: &Known,
    left: &mut ActiveRowList,
) -> Result<(), AllocError>
    ensures { OnOk result (left.new ≡ left.old ++ filter (stays start.now) (active_row_of created_at known.now ∷ [])) }
{
    if start.is_gone(&known.id) {
        return Ok(());
    }
    let known = known.copied()?;
    left.push(ActiveRow { created_at, known })
}

fn push_if_left(
    start: &KeptStart,
    row: &LiveRow<'_>,
    left: &mut ActiveRowList,
) -> Result<(), AllocError>
    ensures { OnOk result (left.new ≡ left.old ++ filter (stays start.now) (listed (row.now ∷ []))) }
{
    match row.active_since() {
        Some(place) => push_if_stays(start, place, row.known(), left),
        None => Ok(()),
    }
}

fn push_row(
    start: &KeptStart,
    live: &LiveRows<'_>,
    at: usize,
    left: &mut ActiveRowList,
) -> Result<(), AllocError>
    ensures { OnOk result (left.new ≡ left.old ++ filter (stays start.now) (listed_at (slice_get live.now at))) }
{
    match live.get(at) {
        Some(row) => push_if_left(start, row, left),
        None => Ok(()),
    }
}

/// The active contracts of these rows, each with the place where it was created, but those that are gone by the start; in the order of the rows.
pub fn left_in(
    alloc: Global,
    start: &KeptStart,
    live: &LiveRows<'_>,
) -> Result<ActiveRowList, AllocError>
    ensures { IfOk result (λ left. left ≡ filter (stays start.now) (listed live.now)) }
{
    let mut left = ActiveRowList::new(alloc);
    'rows: for at in 0..live.len() {
        push_row(start, live, at, &mut left)?;
    }
    Ok(left)
}

fn stands_before(first: &Hash, second: &Hash) -> bool
    ensures { result ≡ name_below first.now second.now }
{
    first.as_bytes().cmp(second.as_bytes()).is_lt()
}

// Where an id stands, or belongs, and whether it is there.
fn place_of(ids: &[Hash], id: Hash) -> (usize, bool)
    ensures within { result.0 ≤ length ids.now }
    ensures there { result.1 ≡ true → with_party id ids.now ≡ ids.now }
    ensures apart { result.1 ≡ false → with_party id ids.now ≡ insert ids.now result.0 id }
{
    let mut at = 0;
    while at < ids.len() && stands_before(&ids[at], &id) {
        at += 1;
    }
    (at, at < ids.len() && ids[at] == id)
}

// Puts an id among ids that ascend, unless it is there.
fn put_id(ids: &mut Vec<Hash>, id: Hash) -> Result<(), AllocError>
    ensures { OnOk result (ids.new.items ≡ with_party id ids.old.items) }
{
    let (at, is_there) = place_of(ids.as_slice(), id);
    if is_there {
        return Ok(());
    }
    ids.insert(at, id)?;
    Ok(())
}

fn put_if_consumed(row: &LiveRow<'_>, ids: &mut Vec<Hash>) -> Result<(), AllocError>
    ensures { OnOk result (ids.new.items ≡ with_parties (consumed_in (row.now ∷ [])) ids.old.items) }
{
    if row.is_consumed() {
        put_id(ids, row.known().id)?;
    }
    Ok(())
}

fn put_row(live: &LiveRows<'_>, at: usize, ids: &mut Vec<Hash>) -> Result<(), AllocError>
    ensures { OnOk result (ids.new.items ≡ with_parties (consumed_at (slice_get live.now at)) ids.old.items) }
{
    match live.get(at) {
        Some(row) => put_if_consumed(row, ids),
        None => Ok(()),
    }
}

/// The ids in `gone` with the ids of the consumed contracts of the rows put among them. They ascend and are there once each, where those in `gone` do
/// and are.
pub fn gone_in(alloc: Global, gone: &[Hash], live: &LiveRows<'_>) -> Result<HashList, AllocError>
    ensures { IfOk result (λ ids. ids ≡ with_parties (consumed_in live.now) gone.now) }
{
    let mut ids = Vec::new(alloc);
    for id in gone {
        ids.push(*id)?;
    }
    'rows: for at in 0..live.len() {
        put_row(live, at, &mut ids)?;
    }
    Ok(HashList::of(ids))
}

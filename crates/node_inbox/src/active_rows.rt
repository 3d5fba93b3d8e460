//! The active contracts at a place.
ghost use Rattle.std.specs.Prelude.{◌≡◌, ◌++◌, ◌∷◌, ◌≤◌, ◌<◌, false, ℕ, [], IfOk, OnOk, filter, map, slice_get};
ghost use Rattle.ledger_model.specs.Forest.{acts};
ghost use Rattle.interpret.specs.Ids.{is_authentic};
ghost use Rattle.contract_store.specs.Written.{written};
ghost use Rattle.framed_form.specs.FramedReading.{framed_reading};
ghost use Rattle.pruned_inbox.specs.Received.{is_received_at};
ghost use Rattle.pruned_inbox.specs.Start.{active_kept};
ghost use Rattle.inbox_registry.specs.ChangeLists.{changes_of, write_changes};
ghost use Rattle.inbox_registry.specs.Changes.{creation_of};
ghost use Rattle.node_inbox.specs.Approved.{KeepChanges, TellsOutcomes, approved_at};
ghost use Rattle.node_inbox.specs.Hosts.{offers, reading_by};
ghost use Rattle.node_inbox.specs.Items.{model_items};
ghost use Rattle.node_inbox.specs.Kept.{BeginsIn};
ghost use Rattle.node_inbox.specs.KeptActive.{AreActive, AreActiveIf, is_unconsumed, placed_between};
ghost use Rattle.node_inbox.specs.Listed.{active_row_of, listed, listed_at};

use crate::applied::approved_at;
use crate::hosting::Hosting;
use crate::kept_active::{KeptActive, not_behind};
use crate::kept_items::KeptItems;
use crate::live_row::LiveRow;
use crate::live_rows::LiveRows;
use confirm_reply::Setup;
use inbox_registry::{Change, Registry};
use ledger_terms::{ActiveRow, ActiveRowList, Exact, Known};
use std::alloc::{AllocError, Global};

// Writes changes by the request at a place.
fn write<'k>(live: &mut LiveRows<'k>, place: u64, changes: &'k [Change]) -> Result<(), AllocError>
    ensures { OnOk result (live.new ≡ write_changes place changes.now live.old) }
{
    for change in changes {
        live.write(place, change)?;
    }
    Ok(())
}

// Writes the changes by the request at a place, where it is approved.
fn write_approved<'k>(
    setup: &Setup,
    items: &'k KeptItems,
    registry: &Registry,
    place: u64,
    live: &mut LiveRows<'k>,
) -> Result<(), AllocError>
    requires told { TellsOutcomes setup.now.topology.params (model_items items.now.items) registry.now }
    requires kept { KeepChanges items.now.items }
    ensures { OnOk result (live.new
        ≡ write_changes place (changes_of (filter is_authentic (acts (approved_at (model_items items.now.items) place)))) live.old) }
{
    match approved_at(setup, items, registry, place) {
        Some(kept) => write(live, place, kept.changes.as_slice()),
        None => Ok(()),
    }
}

// Writes what the approved requests from one place on, below another, change.
fn write_between<'k>(
    setup: &Setup,
    items: &'k KeptItems,
    registry: &Registry,
    start: u64,
    end: u64,
    live: &mut LiveRows<'k>,
) -> Result<(), AllocError>
    requires order { start ≤ end }
    requires told { TellsOutcomes setup.now.topology.params (model_items items.now.items) registry.now }
    requires kept { KeepChanges items.now.items }
    ensures { OnOk result (live.new
        ≡ written (placed_between (framed_reading setup.now.topology setup.now.checked) (model_items items.now.items) start end) live.old) }
{
    'places: for place in start..end {
        write_approved(setup, items, registry, place, live)?;
    }
    Ok(())
}

// Writes the Creates of contracts.
fn write_start<'k>(live: &mut LiveRows<'k>, rows: &'k [ActiveRow]) -> Result<(), AllocError>
    ensures { OnOk result (live.new ≡ written (map creation_of rows.now) live.old) }
{
    for row in rows {
        live.create(row.created_at, &row.known)?;
    }
    Ok(())
}

fn push_if_offered(
    alloc: Global,
    hosting: &Hosting<'_>,
    created_at: u64,
    known: &Known,
    kept: &mut ActiveRowList,
) -> Result<(), AllocError>
    ensures { OnOk result (kept.new ≡ kept.old
        ++ filter (offers hosting.now) (active_row_of created_at known.now ∷ [])) }
{
    if hosting.offers(alloc, created_at, known)? {
        let known = known.copied()?;
        kept.push(ActiveRow { created_at, known })?;
    }
    Ok(())
}

fn push_if_active(
    alloc: Global,
    hosting: &Hosting<'_>,
    row: &LiveRow<'_>,
    kept: &mut ActiveRowList,
) -> Result<(), AllocError>
    ensures { OnOk result (kept.new ≡ kept.old
        ++ filter (offers hosting.now) (listed (row.now ∷ []))) }
{
    match row.active_since() {
        Some(place) => push_if_offered(alloc, hosting, place, row.known(), kept),
        None => Ok(()),
    }
}

fn push_row(
    alloc: Global,
    hosting: &Hosting<'_>,
    live: &LiveRows<'_>,
    at: usize,
    kept: &mut ActiveRowList,
) -> Result<(), AllocError>
    ensures { OnOk result (kept.new ≡ kept.old
        ++ filter (offers hosting.now) (listed_at (slice_get live.now at))) }
{
    match live.get(at) {
        Some(row) => push_if_active(alloc, hosting, row, kept),
        None => Ok(()),
    }
}

// Puts the active contracts of these rows that the participant offers behind those in `kept`, in the order of the rows.
fn push_offered(
    alloc: Global,
    hosting: &Hosting<'_>,
    live: &LiveRows<'_>,
    kept: &mut ActiveRowList,
) -> Result<(), AllocError>
    ensures { OnOk result (kept.new ≡ kept.old ++ filter (offers hosting.now) (listed live.now)) }
{
    'rows: for at in 0..live.len() {
        push_row(alloc, hosting, live, at, kept)?;
    }
    Ok(())
}

fn push_if_unconsumed(
    live: &LiveRows<'_>,
    row: &ActiveRow,
    left: &mut ActiveRowList,
) -> Result<(), AllocError>
    ensures { OnOk result (left.new ≡ left.old ++ filter (is_unconsumed live.now) (row.now ∷ [])) }
{
    if live.is_consumed(&row.known.id) {
        return Ok(());
    }
    let ActiveRow { created_at, known } = row;
    let known = known.copied()?;
    left.push(ActiveRow {
        created_at: *created_at,
        known,
    })
}

// Those of these active contracts that weren't consumed by the rows.
fn left_of(
    alloc: Global,
    rows: &[ActiveRow],
    live: &LiveRows<'_>,
) -> Result<ActiveRowList, AllocError>
    ensures { IfOk result (λ left. left ≡ filter (is_unconsumed live.now) rows.now) }
{
    let mut left = ActiveRowList::with_room(alloc, rows.len())?;
    for row in rows {
        push_if_unconsumed(live, row, &mut left)?;
    }
    Ok(left)
}

// From where on something may have been received, below an end.
fn first_of(items: &KeptItems, end: u64) -> u64
    ensures within { result ≤ end }
    ensures silent { (k : ℕ) → k < result → is_received_at (model_items items.now.items) k ≡ false }
{
    let base = items.base();
    if base < end { base } else { end }
}

/// Rows as a store has them, of active and of consumed contracts: of those that were left at the base and of those that approved requests below the
/// place `end` created or consumed. Goes through the places from the base up to `end`. `setup` is there for the contract alone.
pub fn rows_below<'k>(
    alloc: Global,
    setup: &Setup,
    items: &'k KeptItems,
    registry: &'k Registry,
    end: u64,
) -> Result<LiveRows<'k>, AllocError>
    requires told { TellsOutcomes setup.now.topology.params (model_items items.now.items) registry.now }
    requires kept { KeepChanges items.now.items }
    ensures { IfOk result (λ live. live
        ≡ written (placed_between (framed_reading setup.now.topology setup.now.checked) (model_items items.now.items) 0 end)
        (written (map creation_of registry.now.start.active) [])) }
{
    let mut live = LiveRows::new(alloc);
    write_start(&mut live, registry.start().active().as_slice())?;
    write_between(setup, items, registry, first_of(items, end), end, &mut live)?;
    Ok(live)
}

// The active contracts at the place `end`, made of those that are kept of an earlier place and of the approved requests since.
fn active_from(
    alloc: Global,
    hosting: &Hosting<'_>,
    items: &KeptItems,
    registry: &Registry,
    kept: &KeptActive,
    end: u64,
) -> Result<ActiveRowList, AllocError>
    requires told { TellsOutcomes hosting.now.topology.params (model_items items.now.items) registry.now }
    requires kept { KeepChanges items.now.items }
    requires order { kept.now.place ≤ end }
    requires active { AreActive (reading_by hosting.now) hosting.now.me hosting.now.start (model_items items.now.items) kept.now }
    requires begins { BeginsIn hosting.now.start (model_items items.now.items) }
    ensures { IfOk result (λ rows. rows ≡ active_kept (reading_by hosting.now) hosting.now.me hosting.now.start (model_items items.now.items) end) }
{
    let mut live = LiveRows::new(alloc);
    write_between(hosting.setup(), items, registry, kept.place, end, &mut live)?;
    let mut rows = left_of(alloc, kept.rows.as_slice(), &live)?;
    push_offered(alloc, hosting, &live, &mut rows)?;
    Ok(rows)
}

// The active contracts at the place `end`, made of those that were left at the base and of all approved requests since.
fn active_from_start(
    alloc: Global,
    hosting: &Hosting<'_>,
    items: &KeptItems,
    registry: &Registry,
    end: u64,
) -> Result<ActiveRowList, AllocError>
    requires told { TellsOutcomes hosting.now.topology.params (model_items items.now.items) registry.now }
    requires kept { KeepChanges items.now.items }
    requires begins { BeginsIn hosting.now.start (model_items items.now.items) }
    ensures { IfOk result (λ rows. rows ≡ active_kept (reading_by hosting.now) hosting.now.me hosting.now.start (model_items items.now.items) end) }
{
    let mut live = LiveRows::new(alloc);
    write_start(&mut live, hosting.start().active().as_slice())?;
    let start = first_of(items, end);
    write_between(hosting.setup(), items, registry, start, end, &mut live)?;
    let mut rows = ActiveRowList::new(alloc);
    push_offered(alloc, hosting, &live, &mut rows)?;
    Ok(rows)
}

/// The contracts with a hosted stakeholder that were left at the base or that the approved requests below the place `end` create, and that none of
/// them consumes, in order of creation. `kept` are those of an earlier place: where that isn't behind `end` only the places since are gone through.
pub fn active_rows(
    alloc: Global,
    hosting: &Hosting<'_>,
    items: &KeptItems,
    registry: &Registry,
    kept: &Option<KeptActive>,
    end: u64,
) -> Result<ActiveRowList, AllocError>
    requires told { TellsOutcomes hosting.now.topology.params (model_items items.now.items) registry.now }
    requires kept { KeepChanges items.now.items }
    requires active { AreActiveIf (reading_by hosting.now) hosting.now.me hosting.now.start (model_items items.now.items) kept.now }
    requires begins { BeginsIn hosting.now.start (model_items items.now.items) }
    ensures { IfOk result (λ rows. rows ≡ active_kept (reading_by hosting.now) hosting.now.me hosting.now.start (model_items items.now.items) end) }
{
    match not_behind(kept, end) {
        Some(known) => active_from(alloc, hosting, items, registry, known, end),
        None => active_from_start(alloc, hosting, items, registry, end),
    }
}

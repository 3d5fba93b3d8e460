//! Where an inbox begins.
ghost use Rattle.std.specs.Prelude.{◌≡◌, ◌<◌, ◌∷◌, [], true, List, IfOk, OnOk, get_or, length, map};
ghost use Rattle.contract_store.specs.Rows.{created};
ghost use Rattle.contract_store.specs.Written.{Placed, written};
ghost use Rattle.framed_form.specs.FramedReading.{framed_reading};
ghost use Rattle.inbox_registry.specs.Changes.{creation_of};
ghost use Rattle.prepare_request.specs.Hosted.{AreTold};

use crate::added_ids::{added_ids, put_ids};
use confirm_reply::Setup;
use inbox_registry::{Change, Registry};
use ledger_terms::{ActiveRow, ActiveRowList, Exact, Hash, HashList, Known, ParticipantId};
use prepare_request::HostedIds;
use prepare_request::laws::ids_tell_after_each_change;
use std::alloc::{AllocError, Global};

/// Where an inbox begins: its base, the time of the entry before that, in microseconds, the contracts that were active there, in order
/// of creation, and the ids of the others that requests below it were on, ascending.
#[derive(Drop)]
pub struct Beginning {
    pub base: u64,
    pub base_time: u64,
    pub active: ActiveRowList,
    pub gone: HashList,
}

// The creation of a contract, and nothing else.
fn creation(alloc: Global, known: Known) -> Result<Vec<Change>, AllocError>
    ensures { IfOk result (λ changes. changes.items ≡ record { known = known; is_create = true } ∷ []) }
{
    let mut changes = Vec::new(alloc);
    changes.push(Change {
        known,
        is_create: true,
    })?;
    Ok(changes)
}

// The contract of a row was created at its place.
fn write_created(
    setup: &Setup,
    me: ParticipantId,
    hosted: &mut HostedIds,
    registry: &mut Registry,
    row: ActiveRow,
) -> Result<(), AllocError>
    requires told { AreTold (framed_reading setup.now.topology setup.now.checked) me hosted.old.ids registry.old.store.rows }
    requires written { (ps : List Placed) × (registry.old.store.rows ≡ written ps []) }
    ensures told { OnOk result (AreTold (framed_reading setup.now.topology setup.now.checked) me hosted.new.ids registry.new.store.rows) }
    ensures rows { OnOk result (registry.new.store.rows ≡ created row.known row.created_at registry.old.store.rows) }
    ensures holds { registry.new.store.holds ≡ registry.old.store.holds }
    ensures tracking { registry.new.tracking ≡ registry.old.tracking }
    ensures start { registry.new.start ≡ registry.old.start }
{
    let alloc = *registry.start().active().allocator();
    let ActiveRow { created_at, known } = row;
    let changes = creation(alloc, known)?;
    let (ids, _) = added_ids(alloc, setup, me, registry.store(), changes.as_slice())?;
    hosted.reserve(ids.as_slice().len())?;
    registry.make_room(&changes)?;
    ids_tell_after_each_change();
    put_ids(hosted, &ids);
    registry.write(created_at, changes);
    Ok(())
}

fn copy_of(row: &ActiveRow) -> Result<ActiveRow, AllocError>
    ensures { IfOk result (λ copy. copy ≡ row.now) }
{
    let known = row.known.copied()?;
    Ok(ActiveRow {
        created_at: row.created_at,
        known,
    })
}

fn copy_at(rows: &[ActiveRow], at: usize) -> Result<ActiveRow, AllocError>
    requires { at < length rows.now }
    ensures { IfOk result (λ copy. copy ≡ get_or rows.now at copy) }
{
    let row = &rows[at];
    let copy = copy_of(row)?;
    Ok(copy)
}

fn rows_copy(alloc: Global, rows: &[ActiveRow]) -> Result<ActiveRowList, AllocError>
    ensures { IfOk result (λ copy. copy ≡ rows.now) }
{
    let mut copy = ActiveRowList::with_room(alloc, rows.len())?;
    for row in rows {
        copy.push(copy_of(row)?)?;
    }
    Ok(copy)
}

fn ids_copy(alloc: Global, ids: &[Hash]) -> Result<HashList, AllocError>
    ensures { IfOk result (λ copy. copy ≡ ids.now) }
{
    let mut copy = HashList::with_room(alloc, ids.len())?;
    for id in ids {
        copy.push(*id)?;
    }
    Ok(copy)
}

impl Beginning {
    /// A beginning at this base, with the time of the entry before it in microseconds, and with copies of the contracts that were active there and of
    /// the ids of those that are gone.
    pub fn with_copies(
        alloc: Global,
        base: u64,
        base_time: u64,
        active: &[ActiveRow],
        gone: &[Hash],
    ) -> Result<Beginning, AllocError>
        ensures base { IfOk result (λ beginning. beginning.base ≡ base) }
        ensures base_time { IfOk result (λ beginning. beginning.base_time ≡ base_time) }
        ensures active { IfOk result (λ beginning. beginning.active ≡ active.now) }
        ensures gone { IfOk result (λ beginning. beginning.gone ≡ gone.now) }
    {
        let active = rows_copy(alloc, active)?;
        let gone = ids_copy(alloc, gone)?;
        Ok(Beginning {
            base,
            base_time,
            active,
            gone,
        })
    }
}

// How many contracts were active at the base.
fn start_len(registry: &Registry) -> usize
    ensures { result ≡ length registry.now.start.active }
{
    registry.start().active().len()
}

fn start_row(registry: &Registry, at: usize) -> Result<ActiveRow, AllocError>
    requires { at < length registry.now.start.active }
    ensures { IfOk result (λ row. row ≡ get_or registry.now.start.active at row) }
{
    copy_at(registry.start().active().as_slice(), at)
}

/// Writes the contracts that were active at the base into the store of the registry, as the Creates that made them, and the ids of those with a
/// stakeholder hosted by `me` into `hosted`. After want of memory some of them may be missing.
pub fn write_start(
    setup: &Setup,
    me: ParticipantId,
    hosted: &mut HostedIds,
    registry: &mut Registry,
) -> Result<(), AllocError>
    requires told { AreTold (framed_reading setup.now.topology setup.now.checked) me hosted.old.ids registry.old.store.rows }
    requires none { registry.old.store.rows ≡ [] }
    ensures told { OnOk result (AreTold (framed_reading setup.now.topology setup.now.checked) me hosted.new.ids registry.new.store.rows) }
    ensures rows { OnOk result (registry.new.store.rows ≡ written (map creation_of registry.old.start.active) []) }
    ensures holds { registry.new.store.holds ≡ registry.old.store.holds }
    ensures tracking { registry.new.tracking ≡ registry.old.tracking }
    ensures start { registry.new.start ≡ registry.old.start }
{
    let count = start_len(registry);
    'rows: for at in 0..count {
        let row = start_row(registry, at)?;
        write_created(setup, me, hosted, registry, row)?;
    }
    Ok(())
}

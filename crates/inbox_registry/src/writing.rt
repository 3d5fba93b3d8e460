//! Changes and holds are put into a store.
ghost use Rattle.std.specs.Prelude.{◌≡◌, ◌++◌, ◌+◌, ◌<◌, ◌≤◌, true, All, length, map, OnOk};
ghost use Rattle.contract_store.specs.Stored.{is_ready};
ghost use Rattle.inbox_registry.specs.ChangeLists.{hold_on, write_change, write_changes};
ghost use Rattle.inbox_registry.specs.Room.{HasRoom, IsPrepared};

use crate::change::Change;
use contract_store::{HashList, Store};
use std::alloc::AllocError;

/// Makes room in a store for these changes, so that `write_all` takes no memory. After want of memory rows and holds are as before.
/// seq_log/specs/Admitted.antt:IsAdmitted Where the message is taken and is a request, the outline that comes with it is what its mediator's bytes
/// tell. Of another message, or of one that is refused, it says nothing.
pub fn make_room(store: &mut Store, changes: &Vec<Change>) -> Result<(), AllocError>
    ensures rows { store.new.rows ≡ store.old.rows }
    ensures holds { store.new.holds ≡ store.old.holds }
    ensures room { OnOk result (HasRoom store.new.ready store.new.spare changes.now.items) }
{
    store.make_room(changes.len())?;
    for change in changes.iter() {
        store.make_ready(&change.known.id)?;
    }
    Ok(())
}

// Writes one change by the request at a place.
fn write_one(store: &mut Store, place: u64, change: Change)
    requires spare { 0 < store.old.spare }
    requires ready { IsPrepared store.old.ready change }
    ensures rows { store.new.rows ≡ write_change place change store.old.rows }
    ensures holds { store.new.holds ≡ store.old.holds }
    ensures ready { store.new.ready ≡ store.old.ready }
    ensures spare { store.old.spare ≤ store.new.spare + 1 }
{
    if change.is_create {
        store.create(change.known, place);
    } else {
        store.consume(change.known, place);
    }
}

/// Writes these changes by the request at a place, in order. Room was made for it, so it takes no memory.
pub fn write_all(store: &mut Store, place: u64, changes: Vec<Change>)
    requires { HasRoom store.old.ready store.old.spare changes.items }
    ensures rows { store.new.rows ≡ write_changes place changes.items store.old.rows }
    ensures holds { store.new.holds ≡ store.old.holds }
{
    for change in changes {
        write_one(store, place, change);
    }
}

/// Notes that the request at a place holds the contracts with these ids. Room was made for it, so it takes no memory.
pub fn hold_all(store: &mut Store, place: u64, ids: &HashList)
    requires spare { length ids.now ≤ store.old.spare }
    requires ready { All (λ c. is_ready store.old.ready c ≡ true) ids.now }
    ensures rows { store.new.rows ≡ store.old.rows }
    ensures holds { store.new.holds ≡ store.old.holds ++ map (hold_on place) ids.now }
{
    for id in ids.as_slice() {
        store.hold(*id, place);
    }
}

//! Changes of contracts as lists.
ghost use Rattle.std.specs.Prelude.{◌≡◌, IfOk, map};
ghost use Rattle.inbox_registry.specs.ChangeLists.{id_in};

use inbox_registry::Change;
use ledger_terms::{Exact, HashList};
use std::alloc::{AllocError, Global};

fn change_copy(change: &Change) -> Result<Change, AllocError>
    ensures { IfOk result (λ copy. copy ≡ change.now) }
{
    let known = change.known.copied()?;
    Ok(Change {
        known,
        is_create: change.is_create,
    })
}

/// A copy of these changes.
pub fn changes_copy(alloc: Global, changes: &[Change]) -> Result<Vec<Change>, AllocError>
    ensures { IfOk result (λ copy. copy.items ≡ changes.now) }
{
    let mut copy = Vec::new(alloc);
    copy.reserve_exact(changes.len())?;
    for change in changes {
        copy.push(change_copy(change)?)?;
    }
    Ok(copy)
}

/// The ids of the contracts that these changes are on, in order.
pub fn ids_of(alloc: Global, changes: &[Change]) -> Result<HashList, AllocError>
    ensures { IfOk result (λ ids. ids ≡ map id_in changes.now) }
{
    let mut ids = HashList::with_room(alloc, changes.len())?;
    for change in changes {
        ids.push(change.known.id)?;
    }
    Ok(ids)
}

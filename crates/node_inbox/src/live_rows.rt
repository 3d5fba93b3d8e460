//! The rows of contracts that changes hold, by id.
ghost use Rattle.std.specs.Prelude.{◌≡◌, [], length, option_copied, slice_get, IfOk, OnErr, OnOk};
ghost use Rattle.std.specs.Str.{bytes_eq};
ghost use Rattle.indexmap.specs.IndexMap.{get, insert_entry};
ghost use Rattle.contract_store.specs.Rows.{created, status_in};
ghost use Rattle.inbox_registry.specs.ChangeLists.{write_change};
ghost use Rattle.node_inbox.specs.KeptActive.{is_consumed};
ghost use Rattle.node_inbox.specs.LiveRows.{has_consumed_row, row_after};

use crate::live_row::LiveRow;
use inbox_registry::Change;
use indexmap::IndexMap;
use ledger_terms::{Hash, Known};
use std::alloc::{AllocError, Global};
use std::marker::Model;

/// A row for each contract that changes are on, in the order in which these came. It copies none of the contracts.
#[derive(Drop)]
pub struct LiveRows<'k> {
    rows: IndexMap<Hash, LiveRow<'k>>,
}

impl<'k> Model for LiveRows<'k> {
    ghost use Rattle.std.specs.Prelude.{List};
    ghost use Rattle.contract_store.specs.declared.row.StoreRow.{StoreRow};
    ghost use Rattle.indexmap.specs.IndexMap.{values};
    ghost use Rattle.node_inbox.specs.LiveRows.{AreById};

    ghost Value = { List StoreRow };

    ghost view = { λ s. values s.rows };

    ghost invariant = { λ s. AreById s.rows.entries };
}

// Puts the row of a contract after a change behind its id.
fn put<'k>(
    rows: &mut IndexMap<Hash, LiveRow<'k>>,
    place: u64,
    known: &'k Known,
    is_create: bool,
) -> Result<(), AllocError>
    ensures ok { OnOk result (rows.new.entries ≡ insert_entry bytes_eq rows.old.entries known.now.id
        (row_after place (record { known = known.now; is_create = is_create }) (get bytes_eq rows.old known.now.id))) }
    ensures err { OnErr result (rows.new.entries ≡ rows.old.entries) }
{
    let row = rows.entry(known.id)?.or_insert(LiveRow::new(known));
    row.change(place, is_create);
    Ok(())
}

// Whether the row behind an id is of a consumed contract.
fn is_consumed_in(rows: &IndexMap<Hash, LiveRow<'_>>, id: &Hash) -> bool
    ensures { result ≡ has_consumed_row (get bytes_eq rows.now id.now) }
{
    match rows.get(id) {
        Some(row) => row.is_consumed(),
        None => false,
    }
}

impl<'k> LiveRows<'k> {
    /// No rows.
    pub fn new(alloc: Global) -> LiveRows<'k>
        ensures { result ≡ [] }
    {
        LiveRows {
            rows: IndexMap::new(alloc),
        }
    }

    /// Writes a change by the request at a place into the row of its contract, which gets a row where it has none. An error leaves the rows as they were.
    pub fn write(&mut self, place: u64, change: &'k Change) -> Result<(), AllocError>
        ensures { OnOk result (self.new ≡ write_change place change.now self.old) }
    {
        put(&mut self.rows, place, &change.known, change.is_create)?;
        Ok(())
    }

    /// Writes that a contract was created at a place. An error leaves the rows as they were.
    pub fn create(&mut self, place: u64, known: &'k Known) -> Result<(), AllocError>
        ensures { OnOk result (self.new ≡ created known.now place self.old) }
    {
        put(&mut self.rows, place, known, true)?;
        Ok(())
    }

    /// Whether the contract with this id was consumed. It is false where these rows have none of it.
    pub fn is_consumed(&self, id: &Hash) -> bool
        ensures { result ≡ is_consumed (status_in self.now id.now) }
    {
        is_consumed_in(&self.rows, id)
    }

    /// How many rows there are.
    pub fn len(&self) -> usize
        ensures { result ≡ length self.now }
    {
        self.rows.len()
    }

    /// The row at an index, counted from 0, and none exactly where there are no more.
    pub fn get(&self, at: usize) -> Option<&LiveRow<'k>>
        ensures { option_copied result ≡ slice_get self.now at }
    {
        match self.rows.get_index(at) {
            Some((_, row)) => Some(row),
            None => None,
        }
    }
}

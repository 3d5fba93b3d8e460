//! Plain lists of what a store and a tracker keep.
use crate::check::stores::{Change, id_of, salt_of};
use contract_store::{Store, StoreRow};
use request_track::Tracker;
use std::alloc::{AllocError, Global};

/// A contract by its number, with the places of the first requests that created and that consumed it.
#[derive(Clone, Copy)]
struct PlainRow {
    number: u64,
    created: Option<u64>,
    consumed: Option<u64>,
}

impl PlainRow {
    /// Notes that the request at a place does this to the contract.
    fn write(&mut self, change: Change, place: u64) {
        match change {
            Change::Create => self.created = Some(self.created.unwrap_or(place).min(place)),
            Change::Consume => self.consumed = Some(self.consumed.unwrap_or(place).min(place)),
            Change::Hold => {}
        }
    }

    /// Whether a store's row is that of the same contract and has the same places.
    fn is_like(&self, row: &StoreRow) -> bool {
        row.known.id == id_of(self.number)
            && row.known.salt == salt_of(self.number)
            && row.created_at == self.created
            && row.consumed_at == self.consumed
    }
}

/// A request that isn't decided, with the contract that it holds.
#[derive(Clone, Copy)]
struct PlainHold {
    number: u64,
    place: u64,
}

/// What a store and a tracker keep, as plain lists: the contracts in the order in which they were met, the requests that aren't decided, and how many
/// places were read.
#[derive(Drop)]
pub(crate) struct Plain {
    rows: Vec<PlainRow>,
    holds: Vec<PlainHold>,
    read: u64,
}

impl Plain {
    pub(crate) fn new(alloc: Global) -> Plain {
        Plain {
            rows: Vec::new(alloc),
            holds: Vec::new(alloc),
            read: 0,
        }
    }

    /// How many places were read.
    pub(crate) fn read(&self) -> u64 {
        self.read
    }

    /// How many requests aren't decided.
    pub(crate) fn undecided(&self) -> usize {
        self.holds.len()
    }

    /// Reads a request at the next place, which holds a contract.
    pub(crate) fn begin(&mut self, number: u64) -> Result<(), AllocError> {
        let place = self.read;
        self.read = place.saturating_add(1);
        self.holds.push(PlainHold { number, place })?;
        Ok(())
    }

    /// Notes that the request at a place is decided, so that it holds nothing any more.
    pub(crate) fn settle(&mut self, place: u64) {
        self.holds.retain(|hold| hold.place != place);
    }

    /// Notes that the request at a place creates or consumes the contract with this number.
    pub(crate) fn write(
        &mut self,
        change: Change,
        number: u64,
        place: u64,
    ) -> Result<(), AllocError> {
        for row in self.rows.iter_mut() {
            if row.number == number {
                row.write(change, place);
                return Ok(());
            }
        }
        let mut row = PlainRow {
            number,
            created: None,
            consumed: None,
        };
        row.write(change, place);
        self.rows.push(row)?;
        Ok(())
    }

    /// Whether a store and a tracker tell the same as these lists.
    pub(crate) fn is_like(&self, store: &Store, tracker: &Tracker) -> bool {
        tracker.cursor() == self.read
            && tracker.clean() == self.clean()
            && self.has_rows_of(store)
            && self.has_holds_of(store)
    }

    /// The clean place: the least place of a request that isn't decided, or how many places were read.
    fn clean(&self) -> u64 {
        let mut clean = self.read;
        for hold in self.holds.iter() {
            clean = clean.min(hold.place);
        }
        clean
    }

    /// Whether a store has just these contracts, in this order.
    fn has_rows_of(&self, store: &Store) -> bool {
        for (at, row) in self.rows.iter().enumerate() {
            match store.row(at) {
                Some(found) => {
                    if !row.is_like(found) {
                        return false;
                    }
                }
                None => return false,
            }
        }
        store.len() == self.rows.len()
    }

    /// Whether a store holds exactly the contracts that are held here, among those that have a row.
    fn has_holds_of(&self, store: &Store) -> bool {
        for row in self.rows.iter() {
            let is_held = self.holds.iter().any(|hold| hold.number == row.number);
            if store.locked(&id_of(row.number)) != is_held {
                return false;
            }
        }
        true
    }
}

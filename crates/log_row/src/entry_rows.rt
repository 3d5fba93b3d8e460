//! Where the entries lie. An entry stays where it was put for as long as the log is lent.
ghost use Rattle.std.specs.Prelude.{◌≡◌, ◌<◌, ◌^◌, MatchResult};

use crate::stored::Stored;
use boxcar::slot::{OnceSlot, SlotRule};
use boxcar::tag::Tag;
use std::alloc::{AllocError, Global};
use std::sync::OnceLock;

/// Any entry may lie in a slot.
pub struct AnyEntry;

impl SlotRule<Stored> for AnyEntry {
    ghost use Rattle.std.specs.Prelude.{⊤};

    ghost holds = { λ _ _. ⊤ };
}

// A slot is written by the one writer alone, so nobody waits for one, and none is woken.
type Row = Vec<OnceSlot<Stored, AnyEntry>>;

/// The slots in which the entries of one history lie: rows of doubling length, each made when its first entry comes.
#[derive(Drop)]
pub struct EntryRows {
    alloc: Global,
    rows: Vec<OnceLock<Row>>,
}

impl EntryRows {
    /// A place for entries in which none lies yet.
    pub fn new(alloc: Global) -> Result<EntryRows, AllocError> {
        let mut rows = Vec::new(alloc);
        rows.resize_with(64, || OnceLock::new())?;
        Ok(EntryRows { alloc, rows })
    }

    /// Puts the entry into the slot of the index, counted from 0, and lends it. Where that slot isn't empty, or there is no memory, the entry comes
    /// back as the Err.
    pub fn put<'r>(&'r self, index: u64, entry: Stored) -> Result<&'r Stored, Stored>
        requires { index < 2 ^ 63 }
        ensures { MatchResult result (λ r. r.now ≡ entry) (λ e. e ≡ entry) }
    {
        match self.slot(index) {
            Some(slot) => slot.set(entry),
            None => Err(entry),
        }
    }

    // The index's own slot, which is empty until it is used. None comes where there is no memory.
    fn slot(&self, index: u64) -> Option<&OnceSlot<Stored, AnyEntry>>
        requires { index < 2 ^ 63 }
    {
        let number = index + 1;
        let kind = number.ilog2();
        let first = 1u64.checked_shl(kind)?;
        let offset = number.checked_sub(first)?;
        let lock = self.rows.get(kind as usize)?;
        let row = match lock.get() {
            Some(row) => row,
            None => {
                let fresh = fresh_row(self.alloc, first).ok()?;
                let token = lock.try_set(fresh).ok()?;
                lock.value(&token)
            }
        };
        row.get(offset as usize)
    }
}

fn fresh_row(alloc: Global, length: u64) -> Result<Row, AllocError> {
    let mut row = Vec::new(alloc);
    row.resize_with(length as usize, || OnceSlot::new(&Tag::empty()))?;
    Ok(row)
}

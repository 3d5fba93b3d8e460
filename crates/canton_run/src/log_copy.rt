//! The log, for those who read it when its row is gone.
ghost use Rattle.std.specs.Prelude.{◌≡◌, [], IfOk};

use canton_model::{Entry, EntryList};
use seq_log::Sequencer;
use std::alloc::{AllocError, Global};

#[tactic(auto, using(std::proofs::lemmas::List::Elements::same_from_all_zip))]
fn copy_of(entry: &Entry) -> Result<Entry, AllocError>
    ensures { IfOk result (λ copy. copy ≡ entry.now) }
{
    entry.clone()
}

// Room for as many entries as the log has.
fn room_for(alloc: Global, sequencer: &Sequencer<'_>) -> Result<EntryList, AllocError>
    ensures { IfOk result (λ list. list ≡ []) }
{
    EntryList::with_room(alloc, sequencer.len() as usize)
}

/// A copy of the sequencer's log, which lasts when the row where that lies is gone. An Err is want of memory.
pub fn log_of(alloc: Global, sequencer: &mut Sequencer<'_>) -> Result<EntryList, AllocError>
    ensures same { sequencer.new ≡ sequencer.old }
    ensures log { IfOk result (λ log. log ≡ sequencer.old.list) }
{
    let mut log = room_for(alloc, sequencer)?;
    'entries: while let Some(slip) = sequencer.entry(log.len() as u64) {
        log.push(copy_of(slip.entry())?)?;
    }
    Ok(log)
}

//! A log with one writer, whose entries are handed out as slips. A slip knows the whole list before it.
#![tactic(auto)]

mod entry_rows;
mod history;
mod row;
mod seat;
mod stored;

pub use history::Row;
pub use row::{LogRow, Pen, Slip};

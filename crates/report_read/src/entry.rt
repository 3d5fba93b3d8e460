//! Entries.
use crate::message::Message;
use ledger_terms::ListOf;

/// An entry of the log: its place, its time in microseconds, what it says, and its whole line.
#[derive(Clone, Copy)]
pub struct Entry<'t> {
    pub place: u64,
    pub time: u64,
    pub message: Message<'t>,
    pub line: &'t str,
}

/// Entries in order.
pub type EntryList<'t> = ListOf<Entry<'t>>;

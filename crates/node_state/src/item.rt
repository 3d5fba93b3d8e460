//! What a participant has read of the log, item by item.
use crate::item_what::ItemWhat;
use ledger_terms::ListOf;

/// What an entry of the log is to one participant: its time, in microseconds, and what it brings.
#[derive(Drop)]
pub struct Item {
    pub time: u64,
    pub what: ItemWhat,
}

/// Items.
pub type ItemList = ListOf<Item>;

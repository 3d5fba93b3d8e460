//! Transactions that are split.
use crate::split_view::ViewList;
use ledger_terms::{Hash, PartySet};

/// A transaction with its actions split into views. `act_as`, `ledger_time` and `seed` are those of the transaction.
#[derive(Drop)]
pub struct Views {
    pub act_as: PartySet,
    pub ledger_time: u64,
    pub seed: Hash,
    pub roots: ViewList,
}

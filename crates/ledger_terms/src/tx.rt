//! Transactions.

use crate::act::ActionNodeList;
use crate::hash::Hash;
use crate::party_set::PartySet;

/// A transaction with the parties that request it (`act_as`). `ledger_time` is in microseconds. Root action `i` has the `i`-th child seed of `seed`.
#[derive(Drop)]
pub struct Tx {
    pub act_as: PartySet,
    pub ledger_time: u64,
    pub seed: Hash,
    pub roots: ActionNodeList,
}

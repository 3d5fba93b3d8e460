//! Transactions that are read back.
use ledger_terms::{ActionNodeList, PartySet};

/// What complete envelopes of a request say together: who requests it, the ledger time in microseconds, and all actions, a tree for
/// each root.
#[derive(Drop)]
pub struct WholeTransaction {
    pub requesters: PartySet,
    pub ledger_time: u64,
    pub roots: ActionNodeList,
}

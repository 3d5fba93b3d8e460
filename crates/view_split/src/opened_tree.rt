//! What is opened of a transaction.
use crate::placed_view::PlacedViewList;
use ledger_terms::{Name, PartySet};

/// What a participant reads in a transaction's tree: the sender, the ledger time in microseconds, who requested it where that
/// is told, and the topmost views that it sees, in order of path.
#[derive(Drop)]
pub struct OpenedTree {
    pub sender: Name,
    pub ledger_time: u64,
    pub requesters: Option<PartySet>,
    pub views: PlacedViewList,
}

//! What a participant learns of a log.
use crate::knowledge::KnowledgeList;
use crate::owed::OwedList;
use contract_store::StoreRow;
use ledger_terms::ListOf;

/// Contracts with the places of the requests that created and consumed them.
pub type StoreRowList = ListOf<StoreRow>;

/// What a participant knows before the first entry of a log and after each, the contracts of which it is told by the end, and the
/// verdicts that it owes.
#[derive(Drop)]
pub struct Course {
    pub states: KnowledgeList,
    pub contracts: StoreRowList,
    pub owed: OwedList,
}

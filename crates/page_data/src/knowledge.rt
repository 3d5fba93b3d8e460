//! What a participant knows at a place.
use crate::contract_state::ContractStateList;
use crate::request_state::RequestStateList;
use ledger_terms::{HashList, ListOf, U64List};

/// What a participant knows when it has read the log up to a place: its clean place with the time there, the ids of its active contracts
/// where it has read to, the places that are withheld from it, all contracts of which approved requests told it, and the requests that
/// it received.
#[derive(Drop)]
pub struct Knowledge {
    pub clean: u64,
    pub clean_time: u64,
    pub active: HashList,
    pub withheld: U64List,
    pub contracts: ContractStateList,
    pub requests: RequestStateList,
}

/// Knowledge at one place after another.
pub type KnowledgeList = ListOf<Knowledge>;

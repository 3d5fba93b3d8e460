//! Contracts at a place.
use contract_store::Status;
use ledger_terms::{Hash, ListOf};

/// What a participant knows of a contract at a place: its status there, and whether a request that isn't decided there holds it.
#[derive(Clone, Copy)]
pub struct ContractState {
    pub id: Hash,
    pub status: Status,
    pub is_locked: bool,
}

/// Contracts in the order in which the participant was told of them.
pub type ContractStateList = ListOf<ContractState>;

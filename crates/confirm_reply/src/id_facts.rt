//! What is known of a contract at a place.
use ledger_model::Status;
use ledger_terms::{Hash, ListOf};

/// A contract's status, and whether a request that isn't decided holds it.
#[derive(Clone, Copy)]
pub struct IdFacts {
    pub id: Hash,
    pub status: Status,
    pub locked: bool,
}

/// What is known of contracts.
pub type IdFactsList = ListOf<IdFacts>;

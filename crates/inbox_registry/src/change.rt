//! Changes of contracts.
use ledger_terms::Known;

/// A contract that an action creates, or else consumes.
#[derive(Drop)]
pub struct Change {
    pub known: Known,
    pub is_create: bool,
}

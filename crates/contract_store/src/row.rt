//! Rows.
use ledger_terms::Known;

/// A contract with the places of the requests that created and consumed it.
#[derive(Drop)]
pub struct StoreRow {
    pub known: Known,
    pub created_at: Option<u64>,
    pub consumed_at: Option<u64>,
}

/// A row, with the place of the last row before it that has the same salt.
#[derive(Drop)]
pub struct KeptRow {
    pub row: StoreRow,
    pub before: Option<usize>,
}

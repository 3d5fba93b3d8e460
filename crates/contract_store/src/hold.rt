//! Holds.
use ledger_terms::{Hash, ListOf};

/// A contract that the request at a place creates or consumes.
#[derive(Clone, Copy)]
pub struct Hold {
    pub id: Hash,
    pub place: u64,
}

/// Ids of contracts.
pub type HashList = ListOf<Hash>;

/// A hold as it is kept, live until it is released, with the index of the last one before it on the same contract, and of the last one before it of
/// the same request.
#[derive(Clone, Copy)]
pub struct KeptHold {
    pub hold: Hold,
    pub live: bool,
    pub before_on: Option<usize>,
    pub before_at: Option<usize>,
}

//! Leaves with their hashes.
use ledger_terms::{Bytes, Hash};

/// What is hashed in a leaf, with its hash.
#[derive(Drop)]
pub struct KeptLeaf {
    pub salt: Hash,
    pub bytes: Bytes,
    pub hash: Hash,
}

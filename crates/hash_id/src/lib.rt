//! Tagged hashes: ids of contracts, seeds of actions, salts and hashes of leaves, and hashes of trees. Each is SHA-256
//! (FIPS 180-4) of a string that begins with the byte of its tag, so no two kinds share a string.
#![tactic(auto)]

mod identity;
mod merkle;
mod piece;
mod tag;

pub use identity::{child_seed, contract_id_of_bytes, root_seed};
pub use merkle::{leaf_hash, leaf_salt, tree_hash, view_hash};
pub use tag::Tag;

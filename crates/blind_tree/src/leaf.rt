//! Leaves of trees.
ghost use Rattle.std.specs.Prelude.{◌≡◌};
ghost use Rattle.sha2.specs.Sha256.{sha256};
ghost use Rattle.blind_tree.specs.TreeHashes.{hash_of_leaf};

use hash_id::leaf_hash;
use ledger_terms::{Bytes, Hash};

/// A leaf shows its hash alone, or the salt and the bytes that are hashed.
#[derive(Drop)]
pub enum Leaf {
    Blind(Hash),
    Plain { salt: Hash, bytes: Bytes },
}

/// The hash of a leaf of that kind (1 common, 2 requesters, 3 informees, 4 contents): the one that a blind leaf shows, or that of a plain leaf's salt
/// and bytes.
pub fn hash_of(kind: u8, leaf: &Leaf) -> Hash
    ensures { result ≡ hash_of_leaf sha256 kind leaf.now }
{
    match leaf {
        Leaf::Blind(hash) => *hash,
        Leaf::Plain { salt, bytes } => leaf_hash(kind, salt, bytes.as_slice()),
    }
}

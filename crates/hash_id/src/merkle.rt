//! Salts, hashes of leaves, and hashes of trees over those below them.
ghost use Rattle.std.specs.Prelude.{◌≡◌, ◌<◌, ◌^◌, length};
ghost use Rattle.sha2.specs.Sha256.{sha256};
ghost use Rattle.hash_id.specs.Strings.{inner_string, leaf_hash_string, leaf_salt_string, tree_hash_string, view_hash_string};

use crate::piece::{kind_and_hash, tag_and_hash};
use crate::tag::Tag;
use ledger_terms::Hash;
use sha2::{Digest, Sha256};

/// The salt of a leaf of that kind: 1 common, 2 requesters, 3 informees, 4 contents. It is hashed with the leaf's bytes, so that the hash doesn't give
/// them away. The seed is the transaction's for the kinds 1 and 2, and that of the view's first action for 3 and 4.
pub fn leaf_salt(kind: u8, seed: &Hash) -> Hash
    ensures { result ≡ sha256 (leaf_salt_string kind seed.now) }
{
    let mut hasher = Sha256::new();
    hasher.update(kind_and_hash(Tag::LeafSalt, kind, seed));
    Hash(hasher.finalize())
}

/// The hash of a leaf with that kind (1 common, 2 requesters, 3 informees, 4 contents), that salt and those bytes.
pub fn leaf_hash(kind: u8, salt: &Hash, bytes: &[u8]) -> Hash
    ensures { result ≡ sha256 (leaf_hash_string kind salt.now bytes.now) }
{
    let mut hasher = Sha256::new();
    hasher.update(kind_and_hash(Tag::Leaf, kind, salt));
    hasher.update(bytes);
    Hash(hasher.finalize())
}

/// The hash of a view's vertex, over the hashes of its leaf of informees, of its leaf of contents and of the views directly below it, in order.
pub fn view_hash(informees: &Hash, contents: &Hash, subviews: &[Hash]) -> Hash
    requires { length subviews.now < 2 ^ 32 }
    ensures { result ≡ sha256 (view_hash_string informees.now contents.now subviews.now) }
{
    inner_hash(Tag::View, informees, contents, subviews)
}

/// The hash of a whole tree, over the hashes of its common leaf, of its leaf of requesters and of its root views, in order.
pub fn tree_hash(common: &Hash, requesters: &Hash, views: &[Hash]) -> Hash
    requires { length views.now < 2 ^ 32 }
    ensures { result ≡ sha256 (tree_hash_string common.now requesters.now views.now) }
{
    inner_hash(Tag::Tree, common, requesters, views)
}

// The hash of what stands above two leaves and above others of its kind.
fn inner_hash(tag: Tag, first: &Hash, second: &Hash, below: &[Hash]) -> Hash
    requires { length below.now < 2 ^ 32 }
    ensures { result ≡ sha256 (inner_string tag first.now second.now below.now) }
{
    let mut hasher = Sha256::new();
    hasher.update(tag_and_hash(tag, first));
    hasher.update(second.0);
    hasher.update((below.len() as u32).to_be_bytes());
    for hash in below {
        hasher.update(hash.0);
    }
    Hash(hasher.finalize())
}

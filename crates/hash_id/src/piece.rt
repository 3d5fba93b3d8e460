//! Pieces of strings that are hashed. A hasher takes one at once, which costs less than its parts one by one.
ghost use Rattle.std.specs.Prelude.{◌≡◌, ◌∷◌};
ghost use Rattle.hash_id.specs.Tags.{tag_byte};

use crate::tag::Tag;
use ledger_terms::Hash;

/// The tag and a hash.
pub(crate) fn tag_and_hash(tag: Tag, hash: &Hash) -> [u8; 33]
    ensures { result ≡ tag_byte tag ∷ hash.now }
{
    let mut bytes = [0; 33];
    bytes[0] = tag.byte();
    bytes[1..].copy_from_slice(hash.as_bytes());
    bytes
}

/// The tag, the kind of a leaf, and a hash.
pub(crate) fn kind_and_hash(tag: Tag, kind: u8, hash: &Hash) -> [u8; 34]
    ensures { result ≡ tag_byte tag ∷ kind ∷ hash.now }
{
    let mut bytes = [0; 34];
    bytes[0] = tag.byte();
    bytes[1] = kind;
    bytes[2..].copy_from_slice(hash.as_bytes());
    bytes
}

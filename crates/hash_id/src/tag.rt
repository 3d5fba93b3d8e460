//! What a hash is of.
ghost use Rattle.std.specs.Prelude.{◌≡◌, ◌∷◌, []};
ghost use Rattle.sha2.specs.Hashers.{Holds256};
ghost use Rattle.hash_id.specs.Tags.{tag_byte};

use sha2::{Digest, Sha256};

/// What a hash is of. Each string that is hashed begins with the byte of its tag.
#[derive(Clone, Copy, PartialEq, Eq)]
pub enum Tag {
    ContractId,
    ChildSeed,
    RootSeed,
    Leaf,
    View,
    Tree,
    LeafSalt,
}

impl Tag {
    /// The byte that the tag's strings begin with.
    pub fn byte(self) -> u8
        ensures { result ≡ tag_byte self }
    {
        match self {
            Tag::ContractId => 1,
            Tag::ChildSeed => 2,
            Tag::RootSeed => 3,
            Tag::Leaf => 4,
            Tag::View => 5,
            Tag::Tree => 6,
            Tag::LeafSalt => 7,
        }
    }

    // A hasher that was fed the tag's byte.
    pub(crate) fn hasher(self) -> Sha256
        ensures { Holds256 result (tag_byte self ∷ []) }
    {
        let mut hasher = Sha256::new();
        hasher.update([self.byte()]);
        hasher
    }
}

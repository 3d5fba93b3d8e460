//! Ids of contracts and seeds of actions.
ghost use Rattle.std.specs.Prelude.{◌≡◌, ◌++◌, List, ℕ};
ghost use Rattle.sha2.specs.Hashers.{Holds256};
ghost use Rattle.sha2.specs.Sha256.{sha256};
ghost use Rattle.hash_id.specs.Strings.{child_seed_string, contract_id_string, root_seed_string, spelled_name};

use crate::piece::tag_and_hash;
use crate::tag::Tag;
use ledger_terms::{Hash, Name};
use sha2::{Digest, Sha256};

/// The id of the contract that a create with this salt makes. `instance_bytes` is the spelling of its instance.
pub fn contract_id_of_bytes(salt: &Hash, instance_bytes: &[u8]) -> Hash
    ensures { result ≡ sha256 (contract_id_string salt.now instance_bytes.now) }
{
    let mut hasher = Sha256::new();
    hasher.update(tag_and_hash(Tag::ContractId, salt));
    hasher.update(instance_bytes);
    Hash(hasher.finalize())
}

/// The seed of the child that stands at an index, counted from 0, below the action with that seed.
pub fn child_seed(seed: &Hash, index: u32) -> Hash
    ensures { result ≡ sha256 (child_seed_string seed.now index) }
{
    let mut hasher = Sha256::new();
    hasher.update(tag_and_hash(Tag::ChildSeed, seed));
    hasher.update(index.to_be_bytes());
    Hash(hasher.finalize())
}

/// The seed of the command with this id of the participant with this name, from which the seeds of all its actions come.
pub fn root_seed(participant: Name, command: Name) -> Hash
    ensures { result ≡ sha256 (root_seed_string participant command) }
{
    let mut hasher = Tag::RootSeed.hasher();
    update_name(&mut hasher, &participant);
    update_name(&mut hasher, &command);
    Hash(hasher.finalize())
}

fn update_name(hasher: &mut Sha256, name: &Name)
    ensures { (m : List ℕ) → Holds256 hasher.old m → Holds256 hasher.new (m ++ spelled_name name.now) }
{
    let text = name.as_bytes();
    hasher.update([text.len() as u8]);
    hasher.update(text);
}

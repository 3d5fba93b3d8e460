//! Where a contract is looked up.
ghost use Rattle.std.specs.Prelude.{◌≡◌, ◌==◌, List, find, option_copied};
ghost use Rattle.std.specs.Cmp.Lexicographic.{pointwise};

use crate::hash::Hash;
use crate::known::{Known, KnownList};

/// Where contracts are looked up: the active contracts of a participant, in order of creation. No look-up takes memory.
pub trait KnownContracts {
    ghost use Rattle.ledger_terms.specs.declared.known.Known.{Known};

    ghost rows: { Self → List Known };

    /// The first contract with that id, and None exactly where there is none.
    fn find(&self, id: &Hash) -> Option<&Known>
        ensures { option_copied result ≡ find (λ k. pointwise ◌==◌ k.id id.now) (rows self.now) };

    /// The first contract with that salt, and none exactly where there is none.
    fn find_salt(&self, salt: &Hash) -> Option<&Known>
        ensures { option_copied result ≡ find (λ k. pointwise ◌==◌ k.salt salt.now) (rows self.now) };
}

impl KnownContracts for KnownList {
    ghost rows = { λ l. l };

    fn find(&self, id: &Hash) -> Option<&Known> {
        self.as_slice().iter().find(|k| k.id == *id)
    }

    fn find_salt(&self, salt: &Hash) -> Option<&Known> {
        self.as_slice().iter().find(|k| k.salt == *salt)
    }
}

//! Places in a JSON value. The only error is want of memory.
ghost use Rattle.std.specs.Prelude.{◌≡◌, [], IfOk};
ghost use Rattle.ledger_terms.specs.Pointers.{at_member, at_item};

use crate::chain::Chain;
use ledger_terms::Pointer;
use std::alloc::{AllocError, Global};
use std::marker::Model;

/// The place of a value while a JSON value is read, which contracts see as the text of its JSON pointer (RFC 6901). It takes
/// no memory: it borrows the place above it, and becomes a pointer only where there is a fault.
#[derive(Drop)]
pub struct Place<'a> {
    chain: Chain<'a>,
}

impl<'a> Model for Place<'a> {
    ghost use Rattle.std.specs.Prelude.{List, ℕ};

    ghost Value = { List ℕ };

    ghost use Rattle.json_walk.specs.Chains.{pointer_text};

    ghost view = { λ p. pointer_text p.chain };
}

impl<'a> Place<'a> {
    /// The place of the whole value, from which all others go on. `alloc` gives the memory for the pointers that are made of them.
    pub fn root(alloc: Global) -> Place<'a>
        ensures { result ≡ [] }
    {
        Place {
            chain: Chain::Root(alloc),
        }
    }

    /// The place of the member `name` of the object at this place.
    pub fn member<'b>(&'b self, name: &'b str) -> Place<'b>
        ensures { result ≡ at_member self.now name.now }
    {
        Place {
            chain: Chain::Member(&self.chain, name),
        }
    }

    /// The place of the item at `index`, counted from 0, of the list at this place.
    pub fn item(&self, index: usize) -> Place<'_>
        ensures { result ≡ at_item self.now index }
    {
        Place {
            chain: Chain::Item(&self.chain, index),
        }
    }

    /// The place as a JSON pointer, in memory of its own, as a fault has it.
    pub fn pointer(&self) -> Result<Pointer, AllocError>
        ensures { IfOk result (λ p. p ≡ self.now) }
    {
        self.chain.pointer()
    }
}

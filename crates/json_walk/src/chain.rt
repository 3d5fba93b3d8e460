//! Steps from a value up to the whole. The only error is want of memory.
ghost use Rattle.std.specs.Prelude.{◌≡◌, IfOk};
ghost use Rattle.json_walk.specs.Chains.{pointer_text};

use ledger_terms::Pointer;
use std::alloc::{AllocError, Global};

/// The steps from the whole value down to a place: the name of a member or the index of an item, each behind those above
/// it, which it borrows. The whole has the allocator for what is made of the steps.
#[derive(Drop)]
pub enum Chain<'a> {
    Root(Global),
    Member(&'a Chain<'a>, &'a str),
    Item(&'a Chain<'a>, usize),
}

impl Chain<'_> {
    /// The JSON pointer (RFC 6901) that the steps spell, from the whole value down; it is empty at the root.
    pub fn pointer(&self) -> Result<Pointer, AllocError>
        ensures { IfOk result (λ p. p ≡ pointer_text self.now) }
    {
        match self {
            Chain::Root(alloc) => Ok(Pointer::root(*alloc)),
            Chain::Member(above, name) => above.pointer()?.member(name),
            Chain::Item(above, index) => above.pointer()?.item(*index),
        }
    }
}

//! Trees with numbers.
ghost use Rattle.std.specs.Prelude.{◌+◌, ◌<◌, ◌^◌};
ghost use Rattle.ledger_terms.specs.Forest.{size};

use ledger_terms::ActionNode;

/// A tree of what is opened, with the number of its root among all that is opened.
#[derive(Clone, Copy)]
pub(crate) struct Numbered<'a> {
    pub(crate) number: usize,
    pub(crate) node: &'a ActionNode,
    ghost within: { number + size node.now.below + 1 < 2 ^ 63 },
}

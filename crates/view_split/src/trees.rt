//! Trees in the order in which holes take them.
ghost use Rattle.std.specs.Prelude.{◌≡◌, IfNone, option_to_list};
ghost use Rattle.ledger_terms.specs.Forest.{NoRoots, join};
ghost use Rattle.ledger_terms.specs.Grown.{forest_of};

use ledger_terms::{ActionNode, ActionNodeList};
use std::marker::Model;

/// Trees that are taken one by one, the first one first.
#[derive(Drop)]
pub struct Trees {
    last_first: Vec<ActionNode>,
}

impl Model for Trees {
    ghost use Rattle.ledger_terms.specs.Trees.{Actions};
    ghost use Rattle.ledger_terms.specs.Forest.{coded_forest};
    ghost use Rattle.std.specs.Coded.{codes};
    ghost use Rattle.std.specs.Prelude.{reverse};
    ghost use Rattle.ledger_terms.specs.Grown.{forest_of};

    ghost Value = { Actions };

    ghost coded = { coded_forest (Prim.hlevel codes) };

    ghost view = { λ t. forest_of (reverse t.last_first.items) };
}

impl Trees {
    /// The trees of a list, to be taken from its first on.
    pub fn of(trees: ActionNodeList) -> Trees
        ensures { result ≡ trees }
    {
        let mut last_first = trees.into_vec();
        last_first.reverse();
        Trees { last_first }
    }

    /// Takes the first tree that is left; None where none is.
    pub fn pop(&mut self) -> Option<ActionNode>
        ensures taken { self.old ≡ join (forest_of (option_to_list result)) self.new }
        ensures none { IfNone result (self.new ≡ NoRoots) }
    {
        self.last_first.pop()
    }
}

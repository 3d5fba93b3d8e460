//! Trees of actions.

use crate::action::Action;
use crate::exact::Exact;
use crate::hash::Hash;
use crate::tree::{Branches, Tree};

/// An action of a transaction, with its seed.
#[derive(Clone, Drop)]
pub struct Act {
    pub seed: Hash,
    pub action: Action,
}

/// An action with its consequences.
pub type ActionNode = Tree<Act>;

/// Trees of actions.
pub type ActionNodeList = Branches<Act>;

impl Exact for Act {
    ghost use Rattle.std.proofs.Common.{rules};
    ghost use Rattle.std.proofs.lemmas.List.Elements.{same_from_all_zip};

    ghost same = { Prim.search (rules, same_from_all_zip) };
}

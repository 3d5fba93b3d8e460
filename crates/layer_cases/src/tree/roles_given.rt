//! Whether actions have roles, which is asked before calls that need them.
ghost use Rattle.std.specs.Prelude.{◌≡◌, true, All, IsTrue};
ghost use Rattle.std.specs.List.{AllByRecursion};
ghost use Rattle.ledger_terms.specs.Forest.{preorder, roots_of};
ghost use Rattle.ledger_terms.specs.Grown.{forest_of};
ghost use Rattle.ledger_terms.specs.declared.act.Act.{Act};
ghost use Rattle.lang_eval.specs.Language.{has_roles};

use lang_eval::{Checked, roles};
use ledger_terms::{Action, ActionNode, ActionNodeList};
use std::alloc::Global;

/// Whether an action has roles and there is memory for them.
#[tactic(auto, using(project::proofs::Given::has_roles_of))]
pub(crate) fn has_roles(alloc: Global, checked: &Checked, action: &Action) -> bool
    ensures { IsTrue result → has_roles checked.now action.now ≡ true }
{
    match roles(alloc, checked, action) {
        Ok(_) => true,
        Err(_) => false,
    }
}

/// Whether each of some trees has a root with roles.
pub(crate) fn children_have_roles(alloc: Global, checked: &Checked, nodes: &[ActionNode]) -> bool
    ensures { IsTrue result → All (λ (child : Act). has_roles checked.now child.action ≡ true) (roots_of (forest_of nodes.now)) }
{
    for node in nodes {
        if !has_roles(alloc, checked, &node.root.action) {
            return false;
        }
    }
    true
}

/// Whether all actions of trees have roles.
pub(crate) fn all_have_roles(alloc: Global, checked: &Checked, roots: &ActionNodeList) -> bool
    ensures { IsTrue result → AllByRecursion (λ (a : Act). has_roles checked.now a.action ≡ true) (preorder roots.now) }
{
    for node in roots.as_slice() {
        let mine = has_roles(alloc, checked, &node.root.action);
        let below = all_have_roles(alloc, checked, &node.below);
        if !(mine && below) {
            return false;
        }
    }
    true
}

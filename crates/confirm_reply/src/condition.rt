//! Whether views can be checked.
ghost use Rattle.std.specs.Prelude.{◌≡◌, true, IfOk, IsSome, Some};
ghost use Rattle.std.specs.Bool.{Decides};
ghost use Rattle.std.specs.List.{AllByRecursion};
ghost use Rattle.ledger_terms.specs.declared.act.Act.{Act};
ghost use Rattle.ledger_model.specs.Opening.{OpenedView};
ghost use Rattle.view_split.specs.Placed.{shown_by};
ghost use Rattle.confirm_reply.specs.Sure.{IsReady, IsSure};
ghost use Rattle.confirm_reply.specs.Nodes.{acts_of};
ghost use Rattle.confirm_reply.specs.Opened.{CanBeChecked, view_at};

use crate::cores::found_at;
use crate::numbering::numbered;
use crate::opened::{nodes_of, roots_of};
use lang_eval::{Checked, RoleFault, roles};
use ledger_terms::{Action, ActionNode, Path};
use std::alloc::{AllocError, Global};
use view_split::OpenedTree;
use wire_form::is_spellable_instance;

// The most actions of a core that a verdict can number.
const MOST_CORE_ACTIONS: usize = 65_536;

#[tactic(auto, using(crate::proofs::Ready::sure_by, crate::proofs::Ready::never_sure))]
fn is_sure(alloc: Global, checked: &Checked, action: &Action) -> Result<bool, AllocError>
    ensures { IfOk result (λ sure. Decides sure (IsSure checked.now action.now)) }
{
    match roles(alloc, checked, action) {
        Ok(_) => Ok(is_spellable_instance(action.instance())),
        Err(RoleFault::NoRoles) => Ok(false),
        Err(RoleFault::Memory) => Err(AllocError),
    }
}

#[tactic(auto, using(crate::proofs::Ready::first_of))]
fn are_sure(alloc: Global, checked: &Checked, nodes: &[&ActionNode]) -> Result<bool, AllocError>
    ensures { IfOk result (λ sure. Decides sure (AllByRecursion (λ (act : Act). IsSure checked.now act.action) (acts_of nodes.now))) }
{
    for node in nodes {
        if !is_sure(alloc, checked, &node.root.action)? {
            return Ok(false);
        }
    }
    Ok(true)
}

/// Whether the view with this path is opened in `tree` and can be checked: every action that is opened has roles by the packages (`checked`) and an
/// instance that has a spelling, and the view's core has no more actions than a verdict can number.
pub fn can_check(
    alloc: Global,
    checked: &Checked,
    tree: &OpenedTree,
    view: &Path,
) -> Result<bool, AllocError>
    ensures decides { IfOk result (λ can. Decides can (IsReady checked.now tree.now view.now)) }
    ensures opened { IfOk result (λ can. can ≡ true → IsSome (view_at view.now tree.now)) }
    ensures checkable { IfOk result (λ can. can ≡ true → (opened : OpenedView) → view_at view.now tree.now ≡ Some opened
        → CanBeChecked checked.now (shown_by tree.now) opened) }
{
    let roots = roots_of(alloc, &tree.views)?;
    let nodes = nodes_of(alloc, &roots)?;
    let trees = numbered(alloc, &roots, 0)?;
    let Some(found) = found_at(alloc, &tree.views, trees.as_slice(), view)? else {
        return Ok(false);
    };
    if found.core.len() > MOST_CORE_ACTIONS {
        return Ok(false);
    }
    are_sure(alloc, checked, nodes.as_slice())
}

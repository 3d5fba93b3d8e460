//! Authority (Ledger Model: authorization).
ghost use Rattle.std.specs.Prelude.{◌≡◌, true, All, IfOk};
ghost use Rattle.std.specs.List.{list_all};
ghost use Rattle.ledger_terms.specs.Forest.{roots_of};
ghost use Rattle.ledger_terms.specs.Grown.{forest_of};
ghost use Rattle.ledger_terms.specs.declared.act.Act.{Act};
ghost use Rattle.ledger_model.specs.Authority.{is_authorised};
ghost use Rattle.lang_eval.specs.Language.{has_roles, roles_in};
ghost use Rattle.authorise.specs.Below.{are_authorised_below};

use crate::fetching::are_present_stakeholders;
use crate::parties::{authorisers_below, parties_of};
use lang_eval::Checked;
use ledger_terms::{Action, ActionNode, PartySet};
use std::alloc::{AllocError, Global};

/// Whether the parties `by` authorise an action that has roles: they have all signatories of a Create, and all actors of an Exercise, of which there is
/// one at least. The actors of a Fetch have to be exactly the stakeholders among `by`, and there is one at least. Err is want of memory.
pub fn authorised(
    alloc: Global,
    checked: &Checked,
    action: &Action,
    by: &PartySet,
) -> Result<bool, AllocError>
    requires { has_roles checked.now action.now ≡ true }
    ensures { IfOk result (λ b. b ≡ is_authorised (roles_in checked.now) by.now action.now) }
{
    match action {
        Action::Create { id: _, instance } => {
            let contract = parties_of(alloc, checked, instance)?;
            Ok(contract.signatories.subset(by))
        }
        Action::Exercise { actors, .. } => Ok(!actors.is_empty() && actors.subset(by)),
        Action::Fetch {
            instance,
            actors,
            ..
        } => {
            if actors.is_empty() {
                return Ok(false);
            }
            let contract = parties_of(alloc, checked, instance)?;
            Ok(are_present_stakeholders(actors, &contract, by))
        }
    }
}

fn all_authorised(
    alloc: Global,
    checked: &Checked,
    children: &[ActionNode],
    by: &PartySet,
) -> Result<bool, AllocError>
    requires { All (λ (child : Act). has_roles checked.now child.action ≡ true) (roots_of (forest_of children.now)) }
    ensures { IfOk result (λ b. b ≡ list_all (λ (child : Act). is_authorised (roles_in checked.now) by.now child.action) (roots_of (forest_of children.now))) }
{
    for child in children {
        if !authorised(alloc, checked, &child.root.action, by)? {
            return Ok(false);
        }
    }
    Ok(true)
}

/// Whether each direct consequence of the action at the node's root is authorised by that action's actors and the signatories of its contract. All of
/// them have roles. It is true where there is no consequence; Err is want of memory.
pub fn children_authorised(
    alloc: Global,
    checked: &Checked,
    node: &ActionNode,
) -> Result<bool, AllocError>
    requires action { has_roles checked.now node.now.root.action ≡ true }
    requires consequences { All (λ (child : Act). has_roles checked.now child.action ≡ true) (roots_of node.now.below) }
    ensures { IfOk result (λ b. b ≡ are_authorised_below (roles_in checked.now) node.now.root.action node.now.below) }
{
    let children = node.below.as_slice();
    if children.is_empty() {
        return Ok(true);
    }
    let by = authorisers_below(alloc, checked, &node.root.action)?;
    all_authorised(alloc, checked, children, &by)
}

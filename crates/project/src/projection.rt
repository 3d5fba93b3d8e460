//! Projection (Ledger Model: projection).
ghost use Rattle.std.specs.Prelude.{◌≡◌, true, All, IfOk, OnOk};
ghost use Rattle.ledger_terms.specs.Forest.{preorder, join};
ghost use Rattle.ledger_terms.specs.declared.act.Act.{Act};
ghost use Rattle.lang_eval.specs.Language.{has_roles};
ghost use Rattle.project.specs.Informed.{is_informed, projection};

use lang_eval::{Checked, RoleFault, roles};
use ledger_terms::{Act, ActionNodeList, PartySet};
use std::alloc::{AllocError, Global};

/// Whether one of the parties is informed of an action that has roles.
fn is_informed(
    alloc: Global,
    checked: &Checked,
    act: &Act,
    parties: &PartySet,
) -> Result<bool, AllocError>
    requires { has_roles checked.now act.now.action ≡ true }
    ensures { IfOk result (λ b. b ≡ is_informed checked.now parties.now act.now) }
{
    match roles(alloc, checked, &act.action) {
        Ok(roles) => Ok(roles.informees.meets(parties)),
        Err(fault) => {
            prove!(fault == RoleFault::Memory);
            Err(AllocError)
        }
    }
}

/// Puts the projection of trees at the end.
fn project_into(
    alloc: Global,
    checked: &Checked,
    roots: &ActionNodeList,
    parties: &PartySet,
    out: &mut ActionNodeList,
) -> Result<(), AllocError>
    requires { All (λ (a : Act). has_roles checked.now a.action ≡ true) (preorder roots.now) }
    ensures { OnOk result (out.new ≡ join out.old (projection checked.now parties.now roots.now)) }
{
    for node in roots.as_slice() {
        let informed = is_informed(alloc, checked, &node.root, parties)?;
        if informed {
            let whole = node.clone()?;
            out.push(whole)?;
        } else {
            project_into(alloc, checked, &node.below, parties, out)?;
        }
    }
    Ok(())
}

/// What the parties are told of trees whose actions all have roles: an action of which one of them is informed stays with all its consequences, and any
/// other gives way to what they are told of its consequences. Err is want of memory. The layers' tests (`layer_cases`) use it.
pub fn project(
    alloc: Global,
    checked: &Checked,
    roots: &ActionNodeList,
    parties: &PartySet,
) -> Result<ActionNodeList, AllocError>
    requires { All (λ (a : Act). has_roles checked.now a.action ≡ true) (preorder roots.now) }
    ensures { IfOk result (λ trees. trees ≡ projection checked.now parties.now roots.now) }
{
    let mut out = ActionNodeList::new(alloc);
    project_into(alloc, checked, roots, parties, &mut out)?;
    Ok(out)
}

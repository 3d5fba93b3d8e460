//! What the body that asked for an action learns of it.
ghost use Rattle.std.specs.Prelude.{◌≡◌, ◌++◌, ◌∷◌, [], IfOk, OnOk};
ghost use Rattle.ledger_model.specs.Conformance.{result_of_child};
ghost use Rattle.interpret.specs.Asked.{learnt};

use crate::asking::Asking;
use ledger_model::{ChildResult, ChildResultList};
use ledger_terms::{Action, Exact};
use std::alloc::AllocError;

/// A Create gives the contract's id, an Exercise its result, a Fetch the contract's instance.
pub(crate) fn result_of_child(action: &Action) -> Result<ChildResult, AllocError>
    ensures { IfOk result (λ s. s ≡ result_of_child action.now) }
{
    match action {
        Action::Create { id, instance: _ } => Ok(ChildResult::Created(*id)),
        Action::Exercise { result, .. } => Ok(ChildResult::Returned(result.copied()?)),
        Action::Fetch { instance, .. } => Ok(ChildResult::Fetched(instance.copied()?)),
    }
}

/// Puts at the end what a body learns of an action.
pub(crate) fn learn(seen: &mut ChildResultList, action: &Action) -> Result<(), AllocError>
    ensures { OnOk result (seen.new ≡ seen.old ++ result_of_child action.now ∷ []) }
{
    let result = result_of_child(action)?;
    seen.push(result)
}

/// Puts at the end what is learnt of an action. A command learns nothing of those before it.
pub(crate) fn learn_as(
    asking: Asking<'_>,
    seen: &mut ChildResultList,
    action: &Action,
) -> Result<(), AllocError>
    ensures { OnOk result (seen.new ≡ learnt asking.entry seen.old action.now) }
{
    match asking {
        Asking::Body(_) => learn(seen, action),
        Asking::Commands(_) => {
            let alloc = *seen.allocator();
            *seen = ChildResultList::new(alloc);
            Ok(())
        }
    }
}

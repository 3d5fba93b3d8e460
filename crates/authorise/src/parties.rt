//! Who is bound by a contract, of actions that have roles.
ghost use Rattle.std.specs.Prelude.{◌≡◌, ◌++◌, true, Ok, IfOk};
ghost use Rattle.ledger_terms.specs.Parties.{set_of};
ghost use Rattle.lang_eval.specs.Language.{has_roles, is_given, parties_if_typed, roles_in};
ghost use Rattle.ledger_model.specs.Authority.{authorisers_below};

use lang_eval::{Checked, ContractParties, EvalFault, parties_of_contract};
use ledger_terms::{Action, Instance, PartySet};
use std::alloc::{AllocError, Global};

/// The parties of a contract that has them.
pub(crate) fn parties_of(
    alloc: Global,
    checked: &Checked,
    instance: &Instance,
) -> Result<ContractParties, AllocError>
    requires { is_given (parties_if_typed checked.now instance.now) ≡ true }
    ensures { IfOk result (λ p. parties_if_typed checked.now instance.now ≡ Ok p) }
{
    match parties_of_contract(alloc, checked, instance) {
        Ok(parties) => Ok(parties),
        Err(fault) => {
            prove!(fault == EvalFault::Memory);
            Err(AllocError)
        }
    }
}

/// The actors and the signatories together.
#[tactic(auto, using(crate::proofs::Sets::joined_sets))]
fn with_signatories(actors: &PartySet, signatories: &PartySet) -> Result<PartySet, AllocError>
    ensures { IfOk result (λ s. s ≡ set_of (actors.now ++ signatories.now)) }
{
    // Tells that the actors rise, so that they are the set of themselves.
    let _names = actors.as_slice();
    let set = actors.union(signatories)?;
    Ok(set)
}

/// Who authorises the consequences of an action: its actors and the signatories of its contract.
pub(crate) fn authorisers_below(
    alloc: Global,
    checked: &Checked,
    action: &Action,
) -> Result<PartySet, AllocError>
    requires { has_roles checked.now action.now ≡ true }
    ensures { IfOk result (λ s. s ≡ authorisers_below (roles_in checked.now) action.now) }
{
    match action {
        Action::Create { id: _, instance } => {
            let contract = parties_of(alloc, checked, instance)?;
            with_signatories(&PartySet::new(alloc), &contract.signatories)
        }
        Action::Exercise {
            instance,
            actors,
            ..
        } => {
            let contract = parties_of(alloc, checked, instance)?;
            with_signatories(actors, &contract.signatories)
        }
        Action::Fetch {
            instance,
            actors,
            ..
        } => {
            let contract = parties_of(alloc, checked, instance)?;
            with_signatories(actors, &contract.signatories)
        }
    }
}

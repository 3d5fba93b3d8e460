//! The tests of an action by itself, and who authorises what.
ghost use Rattle.std.specs.Prelude.{◌≡◌, ◌++◌, [], IfOk, OnOk};
ghost use Rattle.ledger_terms.specs.Answers.{UnlessMemory};
ghost use Rattle.ledger_terms.specs.Parties.{set_of, with_parties};
ghost use Rattle.ledger_model.specs.Parties.{within};
ghost use Rattle.lang_eval.specs.Language.{parties_if_typed, signatories_in, observers_in};
ghost use Rattle.wire_form.specs.Spellable.{IsSpellableInstance};
ghost use Rattle.interpret.specs.Tested.{are_authorised, authorisers, call_controllers, created_signatories, fetchers, signers};

use crate::sizes::{are_small_args, is_small_instance};
use lang_eval::{
    Checked, ContractParties, EvalFault, call_has_kinds, has_kinds, parties_of_choice,
    parties_of_contract, parties_of_created,
};
use ledger_model::ChoiceCall;
use ledger_terms::{Instance, PartySet};
use std::alloc::{AllocError, Global};

/// The signatories of a contract that is created, after the tests of its Create.
#[tactic(auto, unfolding(crate::specs::Tested::created_signatories))]
pub(crate) fn created_signatories(
    alloc: Global,
    checked: &Checked,
    instance: &Instance,
) -> Result<PartySet, EvalFault>
    ensures signatories { UnlessMemory EvalFault.Memory result (created_signatories checked.now instance.now) }
    ensures spellable { IfOk result (λ _. IsSpellableInstance instance.now) }
{
    if !has_kinds(checked, instance) {
        return Err(EvalFault::Assert);
    }
    if !is_small_instance(instance) {
        return Err(EvalFault::TooLarge);
    }
    let parties = parties_of_created(alloc, checked, instance)?;
    Ok(parties.signatories)
}

/// The controllers of a call, after the tests of its Exercise before its body.
#[tactic(auto, unfolding(crate::specs::Tested::call_controllers))]
pub(crate) fn call_controllers(
    alloc: Global,
    checked: &Checked,
    call: &ChoiceCall,
) -> Result<PartySet, EvalFault>
    ensures { UnlessMemory EvalFault.Memory result (call_controllers checked.now call.now) }
{
    if !call_has_kinds(checked, call) {
        return Err(EvalFault::Assert);
    }
    if !are_small_args(&call.args) {
        return Err(EvalFault::TooLarge);
    }
    let parties = parties_of_choice(alloc, checked, call)?;
    Ok(parties.controllers)
}

fn no_parties(alloc: Global) -> ContractParties
    ensures { result ≡ record { signatories = []; observers = [] } }
{
    ContractParties {
        signatories: PartySet::new(alloc),
        observers: PartySet::new(alloc),
    }
}

/// The parties of a contract that has roles, and none of another.
fn contract_parties(
    alloc: Global,
    checked: &Checked,
    instance: &Instance,
) -> Result<ContractParties, AllocError>
    ensures signatories { IfOk result (λ p. p.signatories ≡ signatories_in (parties_if_typed checked.now instance.now)) }
    ensures observers { IfOk result (λ p. p.observers ≡ observers_in (parties_if_typed checked.now instance.now)) }
{
    if !has_kinds(checked, instance) {
        return Ok(no_parties(alloc));
    }
    match parties_of_contract(alloc, checked, instance) {
        Ok(parties) => Ok(parties),
        Err(EvalFault::Memory) => Err(AllocError),
        Err(_) => Ok(no_parties(alloc)),
    }
}

/// Who authorises the consequences of an Exercise: its actors and the signatories of its contract.
#[tactic(auto, unfolding(crate::specs::Tested::signers), using(lang_eval::proofs::RoleLaws::set_of_two))]
pub(crate) fn authorisers(
    alloc: Global,
    checked: &Checked,
    instance: &Instance,
    actors: &PartySet,
) -> Result<PartySet, AllocError>
    ensures { IfOk result (λ s. s ≡ authorisers checked.now instance.now actors.now) }
{
    let parties = contract_parties(alloc, checked, instance)?;
    // tells the prover that the set rises
    let _rising = actors.as_slice();
    actors.union(&parties.signatories)
}

/// Whether there are actors, all of whom are among the authorisers.
pub(crate) fn are_authorised(actors: &PartySet, by: &PartySet) -> bool
    ensures { result ≡ are_authorised actors.now by.now }
{
    !actors.as_slice().is_empty() && actors.subset(by)
}

/// Puts those parties of a set into another that are among the authorisers.
fn insert_within(set: &mut PartySet, parties: &PartySet, by: &PartySet) -> Result<(), AllocError>
    ensures { OnOk result (set.new ≡ with_parties (within parties.now by.now) set.old) }
{
    for name in parties.as_slice() {
        if by.contains(*name) {
            set.insert(*name)?;
        }
    }
    Ok(())
}

/// The stakeholders that are among the authorisers.
#[tactic(auto, using(crate::proofs::Within::within_sets))]
fn stakeholders_within(
    alloc: Global,
    parties: &ContractParties,
    by: &PartySet,
) -> Result<PartySet, AllocError>
    ensures { IfOk result (λ s. s ≡ set_of (within (parties.now.signatories ++ parties.now.observers) by.now)) }
{
    let mut set = PartySet::new(alloc);
    insert_within(&mut set, &parties.signatories, by)?;
    insert_within(&mut set, &parties.observers, by)?;
    Ok(set)
}

/// The stakeholders of a contract that are among the authorisers.
#[tactic(auto, unfolding(crate::specs::Tested::fetchers))]
pub(crate) fn fetchers(
    alloc: Global,
    checked: &Checked,
    instance: &Instance,
    by: &PartySet,
) -> Result<PartySet, AllocError>
    ensures { IfOk result (λ s. s ≡ fetchers checked.now instance.now by.now) }
{
    let parties = contract_parties(alloc, checked, instance)?;
    stakeholders_within(alloc, &parties, by)
}

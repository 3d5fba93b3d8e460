//! Who is involved in an action.
ghost use Rattle.std.specs.Prelude.{◌≡◌, ◌++◌, Err, IfOk, OnOk, cond};
ghost use Rattle.ledger_terms.specs.Answers.{UnlessMemory};
ghost use Rattle.ledger_terms.specs.Parties.{set_of, with_parties};
ghost use Rattle.lang_eval.specs.Language.{parties_if_typed, observers_if_typed, or_no_roles, roles};
ghost use Rattle.lang_eval.specs.Kinds.{have_kinds};
ghost use Rattle.lang_eval.specs.Parts.{contract_parties_of, choice_observers_of};
ghost use Rattle.lang_eval.specs.declared.role_fault.RoleFault.TheVariants.{NoRoles};
ghost use Rattle.lang_eval.specs.RoleSets.{stakeholders_in, told_first, with_actors, create_roles, exercise_roles, fetch_roles};

use crate::call_parts::CallParts;
use crate::checked::{Checked, choice_of};
use crate::contract_parties::ContractParties;
use crate::forms::both;
use crate::kinds::have_kinds;
use crate::parties::{observers_by, parties_by};
use crate::role_fault::{RoleFault, of_fault};
use ledger_model::Roles;
use ledger_terms::{Action, Choice, Instance, PartySet, Template};
use std::alloc::{AllocError, Global};

fn typed_parties(
    alloc: Global,
    template: &Template,
    instance: &Instance,
) -> Result<ContractParties, RoleFault>
    ensures { UnlessMemory RoleFault.Memory result
        (cond (have_kinds instance.now.fields template.now.fields) (or_no_roles (contract_parties_of template.now instance.now)) (Err NoRoles)) }
{
    if !have_kinds(instance.fields.as_slice(), template.fields.as_slice()) {
        return Err(RoleFault::NoRoles);
    }
    match parties_by(alloc, template, instance) {
        Ok(parties) => Ok(parties),
        Err(fault) => Err(of_fault(fault)),
    }
}

#[tactic(auto, unfolding(crate::specs::Parts::parties_of_contract))]
fn parties_if_typed(
    alloc: Global,
    checked: &Checked,
    instance: &Instance,
) -> Result<ContractParties, RoleFault>
    ensures { UnlessMemory RoleFault.Memory result (parties_if_typed checked.now instance.now) }
{
    match checked.template(instance.template) {
        Some(template) => typed_parties(alloc, template, instance),
        None => Err(RoleFault::NoRoles),
    }
}

fn typed_observers(
    alloc: Global,
    template: &Template,
    choice: &Choice,
    call: &CallParts<'_>,
) -> Result<PartySet, RoleFault>
    ensures { UnlessMemory RoleFault.Memory result
        (cond (have_kinds call.now.args choice.now.params) (or_no_roles (choice_observers_of template.now choice.now call.now)) (Err NoRoles)) }
{
    if !have_kinds(call.args(), choice.params.as_slice()) {
        return Err(RoleFault::NoRoles);
    }
    match observers_by(alloc, template, choice, call) {
        Ok(parties) => Ok(parties),
        Err(fault) => Err(of_fault(fault)),
    }
}

#[tactic(auto, unfolding(crate::specs::Parts::observers_of_choice))]
fn observers_if_typed(
    alloc: Global,
    checked: &Checked,
    call: &CallParts<'_>,
) -> Result<PartySet, RoleFault>
    ensures { UnlessMemory RoleFault.Memory result (observers_if_typed checked.now call.now) }
{
    match checked.template(call.instance().template) {
        Some(template) => match choice_of(template, call.choice()) {
            Some(choice) => typed_observers(alloc, template, choice, call),
            None => Err(RoleFault::NoRoles),
        },
        None => Err(RoleFault::NoRoles),
    }
}

/// The parties of either set.
#[tactic(auto, using(crate::proofs::RoleLaws::set_of_two))]
fn union_of_two(first: &PartySet, second: &PartySet) -> Result<PartySet, AllocError>
    ensures { IfOk result (λ s. s ≡ set_of (first.now ++ second.now)) }
{
    // tells the prover that the set rises
    let _rising = first.as_slice();
    first.union(second)
}

/// Puts the parties of a set into another.
fn insert_all(set: &mut PartySet, parties: &PartySet) -> Result<(), AllocError>
    ensures { OnOk result (set.new ≡ with_parties parties.now set.old) }
{
    for name in parties.as_slice() {
        set.insert(*name)?;
    }
    Ok(())
}

/// The parties of each of three sets, of which the first is used up.
#[tactic(auto, using(crate::proofs::RoleLaws::set_of_three))]
fn union_of_three(
    first: PartySet,
    second: &PartySet,
    third: &PartySet,
) -> Result<PartySet, AllocError>
    ensures { IfOk result (λ s. s ≡ set_of (first ++ (second.now ++ third.now))) }
{
    // tells the prover that the set rises
    let _rising = first.as_slice();
    let mut set = first;
    insert_all(&mut set, second)?;
    insert_all(&mut set, third)?;
    Ok(set)
}

/// The stakeholders are told of a consuming Exercise, and the signatories of another.
fn told_first(parties: &ContractParties, consuming: bool) -> Result<PartySet, AllocError>
    ensures { IfOk result (λ s. s ≡ told_first parties.now consuming) }
{
    if consuming {
        union_of_two(&parties.signatories, &parties.observers)
    } else {
        parties.signatories.clone()
    }
}

/// Those that an Exercise is told to beside the observers of its choice, and these.
fn informees_of(
    parties: &ContractParties,
    observers: PartySet,
    actors: &PartySet,
    consuming: bool,
) -> Result<PartySet, AllocError>
    ensures { IfOk result (λ s. s ≡ set_of (told_first parties.now consuming ++ (actors.now ++ observers))) }
{
    let told = told_first(parties, consuming)?;
    union_of_three(told, actors, &observers)
}

fn with_actors(
    parties: ContractParties,
    actors: &PartySet,
    informees: PartySet,
) -> Result<Roles, AllocError>
    ensures { IfOk result (λ r. r ≡ with_actors parties actors.now informees) }
{
    let (confirmers, actors) = both(union_of_two(&parties.signatories, actors), actors.clone())?;
    Ok(Roles {
        signatories: parties.signatories,
        observers: parties.observers,
        actors,
        informees,
        confirmers,
    })
}

fn create_roles(alloc: Global, checked: &Checked, instance: &Instance) -> Result<Roles, RoleFault>
    ensures { UnlessMemory RoleFault.Memory result (create_roles checked.now instance.now) }
{
    let parties = parties_if_typed(alloc, checked, instance)?;
    let informees = union_of_two(&parties.signatories, &parties.observers)?;
    Ok(with_actors(parties, &PartySet::new(alloc), informees)?)
}

fn exercise_roles(
    alloc: Global,
    checked: &Checked,
    call: &CallParts<'_>,
    actors: &PartySet,
    consuming: bool,
) -> Result<Roles, RoleFault>
    ensures { UnlessMemory RoleFault.Memory result (exercise_roles checked.now call.now actors.now consuming) }
{
    let parties = parties_if_typed(alloc, checked, call.instance())?;
    let observers = observers_if_typed(alloc, checked, call)?;
    let informees = informees_of(&parties, observers, actors, consuming)?;
    Ok(with_actors(parties, actors, informees)?)
}

fn fetch_roles(
    alloc: Global,
    checked: &Checked,
    instance: &Instance,
    actors: &PartySet,
) -> Result<Roles, RoleFault>
    ensures { UnlessMemory RoleFault.Memory result (fetch_roles checked.now instance.now actors.now) }
{
    let parties = parties_if_typed(alloc, checked, instance)?;
    let informees = union_of_two(&parties.signatories, actors)?;
    Ok(with_actors(parties, actors, informees)?)
}

/// The roles of an action: its signatories, observers, actors, informees and confirmers. An Err is want of memory, or NoRoles exactly where the
/// template or the choice isn't there, fields or arguments haven't the declared number or kinds, the signatories, observers or choice observers have no
/// value, or nobody signs. `ensure` and controllers aren't evaluated.
#[tactic(auto, using(crate::proofs::RoleLaws::roles_are))]
pub fn roles(alloc: Global, checked: &Checked, action: &Action) -> Result<Roles, RoleFault>
    ensures { UnlessMemory RoleFault.Memory result (roles checked.now action.now) }
{
    match action {
        Action::Create { id: _, instance } => create_roles(alloc, checked, instance),
        Action::Exercise {
            id,
            salt: _,
            instance,
            choice,
            args,
            actors,
            consuming,
            result: _,
        } => {
            let call = CallParts::of(id, instance, *choice, args);
            exercise_roles(alloc, checked, &call, actors, *consuming)
        }
        Action::Fetch {
            id: _,
            salt: _,
            instance,
            actors,
        } => fetch_roles(alloc, checked, instance, actors),
    }
}

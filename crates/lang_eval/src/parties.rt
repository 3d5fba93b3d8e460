//! The evaluations of a Create and of an Exercise before its body. Sizes, kinds of fields and arguments, and authority are tried elsewhere.
ghost use Rattle.std.specs.Prelude.{◌≡◌, Ok, Err, cond};
ghost use Rattle.ledger_terms.specs.Answers.{UnlessMemory};
ghost use Rattle.ledger_terms.specs.ExprForms.{expr_form};
ghost use Rattle.lang_eval.specs.Parts.{parties_of, call_names, contract_parties_of, created_parties_of, parties_under, choice_parties_of};
ghost use Rattle.lang_eval.specs.Parts.{choice_observers_of, parties_of_contract, parties_of_created, parties_of_choice};
ghost use Rattle.lang_eval.specs.Parts.{observers_of_choice, is_consuming_call};
ghost use Rattle.lang_eval.specs.Value.{truth, with_value};
ghost use Rattle.lang_eval.specs.declared.eval_fault.EvalFault.TheVariants.{Ensure};

use crate::bindings::Bindings;
use crate::body::field_names;
use crate::bound_fields::BoundFields;
use crate::call_parts::CallParts;
use crate::checked::{Checked, choice_of};
use crate::choice_parties::ChoiceParties;
use crate::contract_parties::ContractParties;
use crate::eval_fault::EvalFault;
use crate::evaluate::{eval_expr, eval_set, eval_test};
use crate::given_names::GivenNames;
use crate::owner::Owner;
use ledger_model::ChoiceCall;
use ledger_terms::{Choice, Expr, Instance, PartySet, Template, Value};
use std::alloc::Global;

#[tactic(auto, using(ledger_terms::proofs::ExprRows::form_SetOf))]
fn eval_parties(expr: &Expr, names: &Bindings<'_>) -> Result<PartySet, EvalFault>
    ensures { UnlessMemory EvalFault.Memory result (parties_of (expr_form expr.now) names.now) }
{
    // nearly all are of this form, and a set needs no value around it
    if let Expr::SetOf(parties) = expr {
        return eval_set(parties, names);
    }
    match eval_expr(expr, names)? {
        Value::Parties(parties) => Ok(parties),
        _ => Err(EvalFault::NoSignatory),
    }
}

#[tactic(auto, using(crate::proofs::Given::fields_behind))]
fn call_names<'a>(
    alloc: Global,
    template: &'a Template,
    choice: &'a Choice,
    call: &'a CallParts<'_>,
) -> Bindings<'a>
    ensures { result ≡ call_names template.now choice.now call.now }
{
    Bindings::of(
        alloc,
        GivenNames::of(
            None,
            BoundFields::of(
                Owner::This,
                template.fields.as_slice(),
                call.instance().fields.as_slice(),
            ),
            BoundFields::of(Owner::Arguments, choice.params.as_slice(), call.args()),
        ),
    )
}

fn parties_under(template: &Template, names: &Bindings<'_>) -> Result<ContractParties, EvalFault>
    ensures { UnlessMemory EvalFault.Memory result (parties_under template.now names.now) }
{
    let signatories = eval_parties(&template.signatories, names)?;
    if signatories.as_slice().is_empty() {
        return Err(EvalFault::NoSignatory);
    }
    let observers = eval_parties(&template.observers, names)?;
    Ok(ContractParties {
        signatories,
        observers,
    })
}

/// The signatories and observers of an instance of this template, whatever its `ensure` says, or the first fault.
pub(crate) fn parties_by(
    alloc: Global,
    template: &Template,
    instance: &Instance,
) -> Result<ContractParties, EvalFault>
    ensures { UnlessMemory EvalFault.Memory result (contract_parties_of template.now instance.now) }
{
    let names = field_names(alloc, template, instance);
    parties_under(template, &names)
}

/// The signatories and observers under these names, after the template's `ensure`.
fn created_under(template: &Template, names: &Bindings<'_>) -> Result<ContractParties, EvalFault>
    ensures { UnlessMemory EvalFault.Memory result
        (with_value (truth template.now.ensure names.now) (λ b. cond b (parties_under template.now names.now) (Err Ensure))) }
{
    if !eval_test(&template.ensure, names)? {
        return Err(EvalFault::Ensure);
    }
    parties_under(template, names)
}

fn created_by(
    alloc: Global,
    template: &Template,
    instance: &Instance,
) -> Result<ContractParties, EvalFault>
    ensures { UnlessMemory EvalFault.Memory result (created_parties_of template.now instance.now) }
{
    let names = field_names(alloc, template, instance);
    created_under(template, &names)
}

fn choice_under(choice: &Choice, names: &Bindings<'_>) -> Result<ChoiceParties, EvalFault>
    ensures { UnlessMemory EvalFault.Memory result
        (with_value (parties_of choice.now.controllers names.now) (λ s.
        with_value (parties_of choice.now.observers names.now) (λ o. Ok (record { controllers = s; observers = o })))) }
{
    let controllers = eval_parties(&choice.controllers, names)?;
    let observers = eval_parties(&choice.observers, names)?;
    Ok(ChoiceParties {
        controllers,
        observers,
    })
}

fn choice_by(
    alloc: Global,
    template: &Template,
    choice: &Choice,
    call: &CallParts<'_>,
) -> Result<ChoiceParties, EvalFault>
    ensures { UnlessMemory EvalFault.Memory result (choice_parties_of template.now choice.now call.now) }
{
    let names = call_names(alloc, template, choice, call);
    choice_under(choice, &names)
}

/// The observers of a call of this choice of this template, or the first fault.
pub(crate) fn observers_by(
    alloc: Global,
    template: &Template,
    choice: &Choice,
    call: &CallParts<'_>,
) -> Result<PartySet, EvalFault>
    ensures { UnlessMemory EvalFault.Memory result (choice_observers_of template.now choice.now call.now) }
{
    let names = call_names(alloc, template, choice, call);
    eval_parties(&choice.observers, &names)
}

/// The signatories and observers of a contract with this instance, by its template, whatever the template's `ensure` says. An Err is the first fault of
/// an evaluation, NoSignatory where nobody signs, Assert where the template isn't there, or want of memory.
#[tactic(auto, unfolding(crate::specs::Parts::parties_of_contract))]
pub fn parties_of_contract(
    alloc: Global,
    checked: &Checked,
    instance: &Instance,
) -> Result<ContractParties, EvalFault>
    ensures { UnlessMemory EvalFault.Memory result (parties_of_contract checked.now instance.now) }
{
    match checked.template(instance.template) {
        Some(template) => parties_by(alloc, template, instance),
        None => Err(EvalFault::Assert),
    }
}

/// The signatories and observers of a contract that is to be created. An Err is Ensure where the template's `ensure` is false, which is tried first,
/// NoSignatory where nobody signs, Assert where the template isn't there, another fault of an evaluation, or want of memory. Sizes and the number and
/// kinds of the fields are left to the caller.
#[tactic(auto, unfolding(crate::specs::Parts::parties_of_created))]
pub fn parties_of_created(
    alloc: Global,
    checked: &Checked,
    instance: &Instance,
) -> Result<ContractParties, EvalFault>
    ensures { UnlessMemory EvalFault.Memory result (parties_of_created checked.now instance.now) }
{
    match checked.template(instance.template) {
        Some(template) => created_by(alloc, template, instance),
        None => Err(EvalFault::Assert),
    }
}

/// The controllers and observers of a call, by its choice. An Err is the first fault of an evaluation, Assert where the choice isn't there, or want of
/// memory. The size of the arguments is left to the caller.
#[tactic(auto, unfolding(crate::specs::Parts::parties_of_choice))]
pub fn parties_of_choice(
    alloc: Global,
    checked: &Checked,
    call: &ChoiceCall,
) -> Result<ChoiceParties, EvalFault>
    ensures { UnlessMemory EvalFault.Memory result (parties_of_choice checked.now call.now) }
{
    match checked.template(call.instance.template) {
        Some(template) => match choice_of(template, call.choice) {
            Some(choice) => choice_by(alloc, template, choice, &CallParts::of_call(call)),
            None => Err(EvalFault::Assert),
        },
        None => Err(EvalFault::Assert),
    }
}

/// The choice observers of a call, whatever its controllers are. An Err is the first fault of an evaluation, Assert where the choice isn't there, or
/// want of memory.
#[tactic(auto, unfolding(crate::specs::Parts::observers_of_choice))]
pub fn observers_of_choice(
    alloc: Global,
    checked: &Checked,
    call: &ChoiceCall,
) -> Result<PartySet, EvalFault>
    ensures { UnlessMemory EvalFault.Memory result (observers_of_choice checked.now call.now) }
{
    match checked.template(call.instance.template) {
        Some(template) => match choice_of(template, call.choice) {
            Some(choice) => observers_by(alloc, template, choice, &CallParts::of_call(call)),
            None => Err(EvalFault::Assert),
        },
        None => Err(EvalFault::Assert),
    }
}

/// Whether a call consumes its contract, as its choice says; false where the choice isn't there.
pub fn is_consuming_call(checked: &Checked, call: &ChoiceCall) -> bool
    ensures { result ≡ is_consuming_call checked.now call.now }
{
    match checked.choice(call.instance.template, call.choice) {
        Some(choice) => choice.consuming,
        None => false,
    }
}

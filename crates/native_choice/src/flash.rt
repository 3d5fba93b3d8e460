//! What Flash does: it creates a second note of the same owner and reader, and archives it.
ghost use Rattle.std.specs.Prelude.{◌≡◌, [], IfOk, Ok, slice_get, Some};
ghost use Rattle.ledger_terms.specs.Answers.{UnlessMemory};
ghost use Rattle.lang_eval.specs.Builtin.{archive_name, flash_form, note_template_name};
ghost use Rattle.lang_eval.specs.Found.{template_in};
ghost use Rattle.lang_eval.specs.Next.{exercise_step, id_in, next_in, value_seen};
ghost use Rattle.native_choice.specs.Flash.{flash_next, second_note, value_or_unit};

use lang_eval::{Checked, EvalFault, archive_name, note_template_name};
use ledger_model::{ChildResult, ChoiceCall, Step};
use ledger_terms::{Exact, Hash, Text, Value, ValueList};
use std::alloc::{AllocError, Global};

/// The field at a place, and Unit where the contract has none there, as a name that isn't bound.
fn field(call: &ChoiceCall, at: usize) -> Result<Value, AllocError>
    ensures { IfOk result (λ v. v ≡ value_or_unit (slice_get call.now.instance.fields at)) }
{
    match call.instance.fields.get(at) {
        Some(value) => value.copied(),
        None => Ok(Value::Unit),
    }
}

fn second_note(alloc: Global, call: &ChoiceCall) -> Result<ValueList, AllocError>
    ensures { IfOk result (λ fields. fields ≡ second_note call.now.instance.fields) }
{
    let mut fields = ValueList::new(alloc);
    fields.push(field(call, 0)?)?;
    fields.push(field(call, 1)?)?;
    fields.push(Value::Text(Text::of(alloc, "flash")?))?;
    Ok(fields)
}

fn create(alloc: Global, call: &ChoiceCall) -> Result<Step, EvalFault>
    ensures { UnlessMemory EvalFault.Memory result (flash_next call.now []) }
{
    let fields = second_note(alloc, call)?;
    Ok(Step::Create {
        template: note_template_name(),
        fields,
    })
}

fn contract_of(value: &Value) -> Result<Hash, EvalFault>
    ensures { result ≡ id_in value.now }
{
    match value {
        Value::Contract(id) => Ok(*id),
        _ => Err(EvalFault::Assert),
    }
}

/// The contract that a child gave.
fn contract_seen(seen: &ChildResult) -> Result<Hash, EvalFault>
    ensures { result ≡ id_in (value_seen seen.now) }
{
    match seen {
        ChildResult::Created(id) => Ok(*id),
        ChildResult::Returned(value) => contract_of(value),
        ChildResult::Fetched(_) => Err(EvalFault::Assert),
    }
}

fn archive(alloc: Global, seen: &ChildResult) -> Result<Step, EvalFault>
    ensures { result ≡ exercise_step note_template_name archive_name (id_in (value_seen seen.now)) (Ok []) }
{
    let id = contract_seen(seen)?;
    Ok(Step::Exercise {
        template: note_template_name(),
        id,
        choice: archive_name(),
        args: ValueList::new(alloc),
    })
}

fn step(alloc: Global, call: &ChoiceCall, so_far: &[ChildResult]) -> Result<Step, EvalFault>
    ensures { UnlessMemory EvalFault.Memory result (flash_next call.now so_far.now) }
{
    match so_far {
        [] => create(alloc, call),
        [note] => archive(alloc, note),
        [_, _, ..] => Ok(Step::Done(Value::Unit)),
    }
}

/// What Flash does after `so_far`, where Note stands in the packages, as in all that were checked.
pub(crate) fn next(
    alloc: Global,
    checked: &Checked,
    call: &ChoiceCall,
    so_far: &[ChildResult],
) -> Result<Step, EvalFault>
    ensures { UnlessMemory EvalFault.Memory result
        (next_in (template_in note_template_name checked.now) (Some flash_form) checked.now call.now so_far.now) }
{
    let _ = checked.as_slice();
    step(alloc, call, so_far)
}

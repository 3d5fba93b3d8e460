//! The operators of expressions, over values.
ghost use Rattle.std.specs.Prelude.{◌≡◌, ◌++◌, ◌∷◌, [], IfOk, OnOk};
ghost use Rattle.ledger_terms.specs.Answers.{UnlessMemory};
ghost use Rattle.ledger_terms.specs.Parties.{with_parties};
ghost use Rattle.lang_eval.specs.Value.{sum_of, difference_of, product_of, is_less, is_less_eq, negation_of, text_of, union_of, has_member, parties_among};
ghost use Rattle.lang_eval.specs.Operation.{operation};

use crate::eval_fault::EvalFault;
use crate::operator::Operator;
use ledger_terms::limits::MOST_TEXT_BYTES;
use ledger_terms::{PartySet, Text, Value};
use std::alloc::{AllocError, Global};

fn add(a: &Value, b: &Value) -> Result<Value, EvalFault>
    ensures { result ≡ sum_of a.now b.now }
{
    match (a, b) {
        (Value::Int(a), Value::Int(b)) => match a.checked_add(*b) {
            Some(n) => Ok(Value::Int(n)),
            None => Err(EvalFault::Overflow),
        },
        _ => Ok(Value::Unit),
    }
}

fn subtract(a: &Value, b: &Value) -> Result<Value, EvalFault>
    ensures { result ≡ difference_of a.now b.now }
{
    match (a, b) {
        (Value::Int(a), Value::Int(b)) => match a.checked_sub(*b) {
            Some(n) => Ok(Value::Int(n)),
            None => Err(EvalFault::Overflow),
        },
        _ => Ok(Value::Unit),
    }
}

fn multiply(a: &Value, b: &Value) -> Result<Value, EvalFault>
    ensures { result ≡ product_of a.now b.now }
{
    match (a, b) {
        (Value::Int(a), Value::Int(b)) => match a.checked_mul(*b) {
            Some(n) => Ok(Value::Int(n)),
            None => Err(EvalFault::Overflow),
        },
        _ => Ok(Value::Unit),
    }
}

fn less(a: &Value, b: &Value) -> Value
    ensures { result ≡ is_less a.now b.now }
{
    match (a, b) {
        (Value::Int(a), Value::Int(b)) => Value::Bool(*a < *b),
        _ => Value::Unit,
    }
}

fn less_eq(a: &Value, b: &Value) -> Value
    ensures { result ≡ is_less_eq a.now b.now }
{
    match (a, b) {
        (Value::Int(a), Value::Int(b)) => Value::Bool(*a <= *b),
        _ => Value::Unit,
    }
}

/// The other Bool; Unit of another operand, which no well-typed expression has.
pub(crate) fn negate(a: &Value) -> Value
    ensures { result ≡ negation_of a.now }
{
    match a {
        Value::Bool(a) => Value::Bool(!*a),
        _ => Value::Unit,
    }
}

fn text_join(alloc: Global, a: &Text, b: &Text) -> Result<Text, AllocError>
    ensures { IfOk result (λ t. t ≡ a.now ++ b.now) }
{
    let mut text = Text::of(alloc, a.as_str())?;
    text.push_str(b.as_str())?;
    Ok(text)
}

fn cat(alloc: Global, a: &Value, b: &Value) -> Result<Value, EvalFault>
    ensures { UnlessMemory EvalFault.Memory result (text_of a.now b.now) }
{
    match (a, b) {
        (Value::Text(a), Value::Text(b)) => {
            let text = text_join(alloc, a, b)?;
            if text.len() <= MOST_TEXT_BYTES {
                Ok(Value::Text(text))
            } else {
                Err(EvalFault::TooLarge)
            }
        }
        _ => Ok(Value::Unit),
    }
}

fn union(a: &Value, b: &Value) -> Result<Value, AllocError>
    ensures { IfOk result (λ v. v ≡ union_of a.now b.now) }
{
    match (a, b) {
        (Value::Parties(a), Value::Parties(b)) => Ok(Value::Parties(a.union(b)?)),
        _ => Ok(Value::Unit),
    }
}

fn has(a: &Value, b: &Value) -> Value
    ensures { result ≡ has_member a.now b.now }
{
    match (a, b) {
        (Value::Parties(a), Value::Party(b)) => Value::Bool(a.contains(*b)),
        _ => Value::Unit,
    }
}

/// Puts a value into a set where it is a party.
pub(crate) fn put_party(set: &mut PartySet, value: &Value) -> Result<(), AllocError>
    ensures { OnOk result (set.new ≡ with_parties (parties_among (value.now ∷ [])) set.old) }
{
    match value {
        Value::Party(party) => set.insert(*party),
        _ => Ok(()),
    }
}

/// What an operator gives of two values, or a fault; Unit of operands of another kind, which no well-typed expression has.
pub(crate) fn apply(
    alloc: Global,
    operator: Operator,
    a: &Value,
    b: &Value,
) -> Result<Value, EvalFault>
    ensures { UnlessMemory EvalFault.Memory result (operation operator a.now b.now) }
{
    match operator {
        Operator::Add => add(a, b),
        Operator::Subtract => subtract(a, b),
        Operator::Multiply => multiply(a, b),
        Operator::Less => Ok(less(a, b)),
        Operator::LessEq => Ok(less_eq(a, b)),
        Operator::Equal => Ok(Value::Bool(*a == *b)),
        Operator::Cat => cat(alloc, a, b),
        Operator::Union => Ok(union(a, b)?),
        Operator::Has => Ok(has(a, b)),
    }
}

//! The values of expressions.
ghost use Rattle.std.specs.Prelude.{◌≡◌, Ok};
ghost use Rattle.ledger_terms.specs.Answers.{UnlessMemory};
ghost use Rattle.ledger_terms.specs.ExprForms.{expr_form, list_form};
ghost use Rattle.ledger_terms.specs.Parties.{set_of};
ghost use Rattle.lang_eval.specs.Names.{binding_of};
ghost use Rattle.lang_eval.specs.Operation.{operation};
ghost use Rattle.lang_eval.specs.Value.{Answer, val, vals, truth, value_in, with_value, both_of, either_of, parties_among};

use crate::bindings::Bindings;
use crate::eval_fault::EvalFault;
use crate::expr_parts::{ExprParts, parts};
use crate::held_value::HeldValue;
use crate::operator::Operator;
use crate::operators::{apply, negate, put_party};
use ledger_terms::{Expr, ExprList, PartySet, Text, Value, ValueList};
use std::alloc::Global;

#[tactic(auto, using(crate::proofs::Given::value_there, crate::proofs::Given::value_absent))]
fn named_value<'a>(name: &Text, names: &'a Bindings<'a>) -> HeldValue<'a>
    ensures { result ≡ value_in (binding_of name.now names.now) }
{
    match names.value(name) {
        Some(value) => HeldValue::given(value),
        None => HeldValue::made(Value::Unit),
    }
}

/// The set of the parties among the values of expressions, or the first fault from the left.
#[cycle(eval)]
pub(crate) fn eval_set<'a>(
    exprs: &'a ExprList,
    names: &'a Bindings<'a>,
) -> Result<PartySet, EvalFault>
    ensures { UnlessMemory EvalFault.Memory result (with_value (vals (list_form exprs.now) names.now) (λ vs. Ok (set_of (parties_among vs)))) }
{
    let mut set = PartySet::new(*names.allocator());
    for expr in exprs.as_slice() {
        let value = hold_expr(expr, names)?;
        put_party(&mut set, value.as_value())?;
    }
    Ok(set)
}

/// An operator applied to a value and to what was evaluated second.
fn applied<'a>(
    alloc: Global,
    operator: Operator,
    first: &Value,
    second: Result<HeldValue<'a>, EvalFault>,
) -> Result<HeldValue<'a>, EvalFault>
    ensures { (answer : Answer)
        → UnlessMemory EvalFault.Memory second.entry answer
        → UnlessMemory EvalFault.Memory result (with_value answer (λ y. operation operator first.now y)) }
{
    let second = second?;
    let value = apply(alloc, operator, first, second.as_value())?;
    Ok(HeldValue::made(value))
}

/// An operator applied to what was evaluated first and to a second expression.
#[cycle(eval)]
fn eval_operation<'a>(
    operator: Operator,
    first: Result<HeldValue<'a>, EvalFault>,
    second: &'a Expr,
    names: &'a Bindings<'a>,
) -> Result<HeldValue<'a>, EvalFault>
    ensures { (answer : Answer)
        → UnlessMemory EvalFault.Memory first.entry answer
        → UnlessMemory EvalFault.Memory result (with_value answer (λ x. with_value (val (expr_form second.now) names.now) (λ y. operation operator x y))) }
{
    let first = first?;
    applied(
        *names.allocator(),
        operator,
        first.as_value(),
        hold_expr(second, names),
    )
}

/// The second expression where the first was evaluated to true.
#[cycle(eval)]
fn hold_both<'a>(
    first: Result<HeldValue<'a>, EvalFault>,
    second: &'a Expr,
    names: &'a Bindings<'a>,
) -> Result<HeldValue<'a>, EvalFault>
    ensures { (answer : Answer)
        → UnlessMemory EvalFault.Memory first.entry answer
        → UnlessMemory EvalFault.Memory result (with_value answer (λ x. both_of x (val (expr_form second.now) names.now))) }
{
    let first = first?;
    if first.is_true() {
        return hold_expr(second, names);
    }
    Ok(first)
}

/// The second expression where the first was evaluated to false.
#[cycle(eval)]
fn hold_either<'a>(
    first: Result<HeldValue<'a>, EvalFault>,
    second: &'a Expr,
    names: &'a Bindings<'a>,
) -> Result<HeldValue<'a>, EvalFault>
    ensures { (answer : Answer)
        → UnlessMemory EvalFault.Memory first.entry answer
        → UnlessMemory EvalFault.Memory result (with_value answer (λ x. either_of x (val (expr_form second.now) names.now))) }
{
    let first = first?;
    if first.is_false() {
        return hold_expr(second, names);
    }
    Ok(first)
}

/// What `hold_expr` answers, apart from it so that room on the stack for all operations is made for an operation alone.
#[cycle(eval)]
#[inline(never)]
fn hold_operation<'a>(expr: &'a Expr, names: &'a Bindings<'a>) -> Result<HeldValue<'a>, EvalFault>
    ensures { UnlessMemory EvalFault.Memory result (val (expr_form expr.now) names.now) }
{
    match parts(expr) {
        ExprParts::Literal(value) => Ok(HeldValue::given(value)),
        ExprParts::Var(name) => Ok(named_value(name, names)),
        ExprParts::Operation(operator, a, b) => {
            eval_operation(operator, hold_expr(a, names), b, names)
        }
        ExprParts::Both(a, b) => hold_both(hold_expr(a, names), b, names),
        ExprParts::Either(a, b) => hold_either(hold_expr(a, names), b, names),
        ExprParts::Negate(a) => {
            let a = hold_expr(a, names)?;
            Ok(HeldValue::made(negate(a.as_value())))
        }
        ExprParts::Cond(test, first, second) => {
            let test = hold_expr(test, names)?;
            if test.is_true() {
                return hold_expr(first, names);
            }
            hold_expr(second, names)
        }
        ExprParts::SetOf(parties) => Ok(HeldValue::made(Value::Parties(eval_set(parties, names)?))),
    }
}

/// The value of an expression, or the first fault from the left, borrowed where it stands in a field or in the expression.
#[cycle(eval)]
fn hold_expr<'a>(expr: &'a Expr, names: &'a Bindings<'a>) -> Result<HeldValue<'a>, EvalFault>
    ensures { UnlessMemory EvalFault.Memory result (val (expr_form expr.now) names.now) }
{
    match expr {
        Expr::Literal(value) => Ok(HeldValue::given(value)),
        Expr::Var(name) => Ok(named_value(name, names)),
        _ => hold_operation(expr, names),
    }
}

/// The value of an expression under these names. An Err is its first fault from the left, or want of memory. A variable that isn't bound and operands
/// of another kind than their operator's, which no well-typed expression has, give Unit.
pub fn eval_expr(expr: &Expr, names: &Bindings<'_>) -> Result<Value, EvalFault>
    ensures { UnlessMemory EvalFault.Memory result (val (expr_form expr.now) names.now) }
{
    let held = hold_expr(expr, names)?;
    Ok(held.into_value()?)
}

/// The values of the expressions under these names, in order. An Err is their first fault from the left, or want of memory.
pub fn eval_list(exprs: &ExprList, names: &Bindings<'_>) -> Result<ValueList, EvalFault>
    ensures { UnlessMemory EvalFault.Memory result (vals (list_form exprs.now) names.now) }
{
    let mut values = ValueList::with_room(*names.allocator(), exprs.len())?;
    for expr in exprs.as_slice() {
        values.push(eval_expr(expr, names)?)?;
    }
    Ok(values)
}

/// Whether the value of an expression under these names is the Bool true; a value of another kind isn't. An Err is its first fault from the left, or
/// want of memory.
pub fn eval_test(test: &Expr, names: &Bindings<'_>) -> Result<bool, EvalFault>
    ensures { UnlessMemory EvalFault.Memory result (truth (expr_form test.now) names.now) }
{
    let held = hold_expr(test, names)?;
    Ok(held.is_true())
}

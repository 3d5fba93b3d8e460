//! Expressions of a package. A party for which nobody of the topology confirms is Unknown. `alloc` gives the memory for what is read; where memory is
//! wanting, also for the place in a fault, the fault is Memory.
ghost use Rattle.std.specs.Prelude.{◌≡◌, ◌≤◌, ◌<◌, ◌+◌, drop, vec_len};
ghost use Rattle.serde_json.specs.View.{view, items_view};
ghost use Rattle.ledger_terms.specs.Syntax.{NoExprs};
ghost use Rattle.ledger_terms.specs.ExprForms.{expr_form, list_form};
ghost use Rattle.ledger_terms.specs.Answers.{FollowsAs};
ghost use Rattle.lang_read.specs.Exprs.{value_of, bound_name, name_after, expr_of, call_of, applied_of, negated_of, pair_of, cond_of, operands_from};

use crate::binary::{Binary, binary_expr};
use crate::literal::read_literal;
use crate::operator::{Operator, read_operator};
use json_walk::{EXPRESSION_DEPTH, Place, WalkFault, check_limit, shape};
use ledger_terms::{Expr, ExprList, Text, Topology};
use serde_json::Value;
use std::alloc::Global;
use std::boxed::Box;

#[tactic(auto, unfolding(crate::specs::Exprs::value_of))]
fn read_value(
    alloc: Global,
    value: &Value,
    at: &Place,
    depth: u64,
    topology: &Topology,
) -> Result<Expr, WalkFault>
    ensures { FollowsAs WalkFault.Memory expr_form result (value_of topology.now.hosts at.now depth (view value.now)) }
{
    let literal = read_literal(alloc, value, at, depth, topology)?;
    Ok(Expr::Literal(literal))
}

#[tactic(auto, unfolding(crate::specs::Exprs::bound_name))]
fn read_bound_name(alloc: Global, value: &Value, at: &Place) -> Result<Expr, WalkFault>
    ensures { FollowsAs WalkFault.Memory expr_form result (bound_name at.now (view value.now)) }
{
    let Some(name) = value.as_str() else {
        return shape(at);
    };
    Ok(Expr::Var(Text::of(alloc, name)?))
}

fn read_name_after(alloc: Global, items: &Vec<Value>, at: &Place) -> Result<Expr, WalkFault>
    ensures { FollowsAs WalkFault.Memory expr_form result (name_after at.now (items_view (drop 1 items.now.items))) }
{
    if items.len() != 2 {
        return shape(at);
    }
    read_bound_name(alloc, &items[1], &at.item(1))
}

/// The expression that a value spells at the place `at`, or the first fault. `depth` is how deep it stands, 1 for a whole expression and one more
/// for its operands, and parties have to be those of the topology.
#[cycle(expr)]
pub fn read_expr(
    alloc: Global,
    value: &Value,
    at: &Place,
    depth: u64,
    topology: &Topology,
) -> Result<Expr, WalkFault>
    requires { depth ≤ EXPRESSION_DEPTH.most + 1 }
    ensures { FollowsAs WalkFault.Memory expr_form result (expr_of topology.now.hosts at.now depth (view value.now)) }
{
    match value {
        Value::Null => read_value(alloc, value, at, depth, topology),
        Value::Bool(_) => read_value(alloc, value, at, depth, topology),
        Value::Number(_) => read_value(alloc, value, at, depth, topology),
        Value::String(_) => read_value(alloc, value, at, depth, topology),
        Value::Array(items) => read_call(alloc, items, at, depth, topology),
        Value::Object(_) => read_value(alloc, value, at, depth, topology),
    }
}

/// The expression that the value spells at the place `at` and at `depth`, as `read_expr` reads it, in a box or the first fault: a box is one word, so
/// that a function that reads other expressions after it keeps little on its stack.
#[cycle(expr)]
pub fn read_boxed(
    alloc: Global,
    value: &Value,
    at: &Place,
    depth: u64,
    topology: &Topology,
) -> Result<Box<Expr>, WalkFault>
    requires { depth ≤ EXPRESSION_DEPTH.most + 1 }
    ensures { FollowsAs WalkFault.Memory (λ e. expr_form e.value) result (expr_of topology.now.hosts at.now depth (view value.now)) }
{
    let expr = read_expr(alloc, value, at, depth, topology)?;
    Ok(Box::new(alloc, expr)?)
}

#[cycle(expr)]
fn read_call(
    alloc: Global,
    items: &Vec<Value>,
    at: &Place,
    depth: u64,
    topology: &Topology,
) -> Result<Expr, WalkFault>
    requires { depth ≤ EXPRESSION_DEPTH.most + 1 }
    ensures { FollowsAs WalkFault.Memory expr_form result (call_of topology.now.hosts at.now depth (items_view items.now.items)) }
{
    if items.is_empty() {
        return shape(at);
    }
    let operator = read_operator(&items[0], at, items.len() - 1)?;
    check_limit(at, EXPRESSION_DEPTH, depth)?;
    read_applied(alloc, operator, items, at, depth, topology)
}

#[cycle(expr)]
#[tactic(auto, using(ledger_terms::proofs::ExprRows::form_SetOf))]
fn read_applied(
    alloc: Global,
    operator: Operator,
    items: &Vec<Value>,
    at: &Place,
    depth: u64,
    topology: &Topology,
) -> Result<Expr, WalkFault>
    requires room { depth ≤ EXPRESSION_DEPTH.most }
    requires begun { 0 < vec_len items.now }
    ensures { FollowsAs WalkFault.Memory expr_form result (applied_of topology.now.hosts at.now depth operator (items_view (drop 1 items.now.items))) }
{
    match operator {
        Operator::Var => read_name_after(alloc, items, at),
        Operator::Two(binary) => read_pair(alloc, binary, items, at, depth, topology),
        Operator::Negate => read_negated(alloc, items, at, depth, topology),
        Operator::Cond => read_cond(alloc, items, at, depth, topology),
        Operator::SetOf => {
            let parties = read_operands(alloc, items, at, depth, topology)?;
            Ok(Expr::SetOf(parties))
        }
    }
}

#[cycle(expr)]
fn read_negated(
    alloc: Global,
    items: &Vec<Value>,
    at: &Place,
    depth: u64,
    topology: &Topology,
) -> Result<Expr, WalkFault>
    requires { depth ≤ EXPRESSION_DEPTH.most }
    ensures { FollowsAs WalkFault.Memory expr_form result (negated_of topology.now.hosts at.now depth (items_view (drop 1 items.now.items))) }
{
    if items.len() != 2 {
        return shape(at);
    }
    let operand = read_boxed(alloc, &items[1], &at.item(1), depth + 1, topology)?;
    Ok(Expr::Negate(operand))
}

#[cycle(expr)]
fn read_pair(
    alloc: Global,
    operator: Binary,
    items: &Vec<Value>,
    at: &Place,
    depth: u64,
    topology: &Topology,
) -> Result<Expr, WalkFault>
    requires { depth ≤ EXPRESSION_DEPTH.most }
    ensures { FollowsAs WalkFault.Memory expr_form result (pair_of topology.now.hosts at.now depth operator (items_view (drop 1 items.now.items))) }
{
    if items.len() != 3 {
        return shape(at);
    }
    let first = read_boxed(alloc, &items[1], &at.item(1), depth + 1, topology)?;
    let second = read_boxed(alloc, &items[2], &at.item(2), depth + 1, topology)?;
    Ok(binary_expr(operator, first, second))
}

#[cycle(expr)]
fn read_cond(
    alloc: Global,
    items: &Vec<Value>,
    at: &Place,
    depth: u64,
    topology: &Topology,
) -> Result<Expr, WalkFault>
    requires { depth ≤ EXPRESSION_DEPTH.most }
    ensures { FollowsAs WalkFault.Memory expr_form result (cond_of topology.now.hosts at.now depth (items_view (drop 1 items.now.items))) }
{
    if items.len() != 4 {
        return shape(at);
    }
    let test = read_boxed(alloc, &items[1], &at.item(1), depth + 1, topology)?;
    let first = read_boxed(alloc, &items[2], &at.item(2), depth + 1, topology)?;
    let second = read_boxed(alloc, &items[3], &at.item(3), depth + 1, topology)?;
    Ok(Expr::Cond(test, first, second))
}

#[cycle(expr)]
#[tactic(auto, using(ledger_terms::proofs::ExprLists::list_forms))]
fn read_operands(
    alloc: Global,
    items: &Vec<Value>,
    at: &Place,
    depth: u64,
    topology: &Topology,
) -> Result<ExprList, WalkFault>
    requires room { depth ≤ EXPRESSION_DEPTH.most }
    requires begun { 0 < vec_len items.now }
    ensures { FollowsAs WalkFault.Memory list_form result (operands_from topology.now.hosts at.now depth 1 NoExprs (items_view (drop 1 items.now.items))) }
{
    let mut operands = ExprList::new(alloc);
    'operands: for i in 1..items.len() {
        let here = at.item(i);
        let operand = read_expr(alloc, &items[i], &here, depth + 1, topology)?;
        operands.push(operand)?;
    }
    Ok(operands)
}

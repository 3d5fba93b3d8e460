//! The kinds of expressions.
ghost use Rattle.std.specs.Prelude.{[], Result, ⊤};
ghost use Rattle.ledger_terms.specs.ExprForms.{expr_form, list_form};
ghost use Rattle.ledger_terms.specs.Pointers.{at_item};
ghost use Rattle.lang_check.specs.declared.check_fault.CheckFault.{CheckFault};
ghost use Rattle.lang_check.specs.Faults.{Walks};
ghost use Rattle.lang_check.specs.Walk.{literal_kind, in_place, whole_behind, second_behind};
ghost use Rattle.lang_check.specs.Walk.{kind_at, all_in_place, expr_at, kinds_from};

use crate::check_kind::CheckKind;
use crate::faults::{found, require};
use crate::operand_kinds::{LOGIC, MEMBER, ORDER, OperandKinds, SUM, TEXTS, UNION};
use crate::scope::Scope;
use crate::stop::Stop;
use json_walk::Place;
use ledger_terms::{Expr, ExprList, Kind, Value};

fn literal_kind(value: &Value, at: &Place) -> Result<Kind, Stop>
    ensures { Walks (λ k. k) result (literal_kind at.now value.now) }
{
    match value {
        Value::Unit => Ok(Kind::Unit),
        Value::Int(_) => Ok(Kind::Int),
        Value::Bool(_) => Ok(Kind::Bool),
        Value::Text(_) => Ok(Kind::Text),
        Value::Party(_) => Ok(Kind::Party),
        Value::Contract(_) => found(None, CheckKind::WrongKind, at),
        Value::Parties(_) => Ok(Kind::Parties),
    }
}

/// The kind of a whole, where the walk of its operands has no fault.
fn whole(found: Result<(), Stop>, kind: Kind) -> Result<Kind, Stop>
    ensures { (walk : Result ⊤ CheckFault) → Walks (λ _. tt) found walk → Walks (λ k. k) result (whole_behind kind walk) }
{
    match found {
        Ok(()) => Ok(kind),
        Err(stop) => Err(stop),
    }
}

#[cycle(kinds)]
fn operand(expr: &Expr, kind: Kind, scope: &Scope, at: &Place) -> Result<(), Stop>
    ensures { Walks (λ _. tt) result (in_place at.now kind (kind_at at.now scope.now (expr_form expr.now))) }
{
    let found = kind_of(expr, scope, at)?;
    require(found == kind, CheckKind::WrongKind, at)
}

#[cycle(kinds)]
fn operands(exprs: &ExprList, kind: Kind, scope: &Scope, at: &Place) -> Result<(), Stop>
    ensures { Walks (λ _. tt) result (all_in_place at.now 1 scope.now kind (list_form exprs.now)) }
{
    let exprs = exprs.as_slice();
    'exprs: for i in 0..exprs.len() {
        operand(&exprs[i], kind, scope, &at.item(i + 1))?;
    }
    Ok(())
}

/// The first operand in its place.
#[cycle(kinds)]
fn first_place(expr: &Expr, kinds: OperandKinds, scope: &Scope, at: &Place) -> Result<(), Stop>
    ensures { Walks (λ _. tt) result (in_place (at_item at.now 1) kinds.first (kind_at (at_item at.now 1) scope.now (expr_form expr.now))) }
{
    operand(expr, kinds.first, scope, &at.item(1))
}

/// The second operand in its place, behind the walk of the first one, and then the kind of the whole.
#[cycle(kinds)]
fn second_place(
    first: Result<(), Stop>,
    expr: &Expr,
    kinds: OperandKinds,
    scope: &Scope,
    at: &Place,
) -> Result<Kind, Stop>
    ensures { (walk : Result ⊤ CheckFault) → Walks (λ _. tt) first walk → Walks (λ k. k) result
        (second_behind at.now kinds.second kinds.whole walk (kind_at (at_item at.now 2) scope.now (expr_form expr.now))) }
{
    first?;
    operand(expr, kinds.second, scope, &at.item(2))?;
    Ok(kinds.whole)
}

/// The kind of an expression, or its first fault: each operand is walked whole, and then tried against the kind of its
/// place, before the next one counts.
#[cycle(kinds)]
#[tactic(auto, using(ledger_terms::proofs::ExprRows::form_SetOf))]
pub(crate) fn kind_of(expr: &Expr, scope: &Scope, at: &Place) -> Result<Kind, Stop>
    ensures { Walks (λ k. k) result (kind_at at.now scope.now (expr_form expr.now)) }
{
    match expr {
        Expr::Literal(value) => literal_kind(value, at),
        Expr::Var(name) => found(scope.kind_of(name), CheckKind::UnknownName, at),
        Expr::Add(a, b) => second_place(first_place(a, SUM, scope, at), b, SUM, scope, at),
        Expr::Sub(a, b) => second_place(first_place(a, SUM, scope, at), b, SUM, scope, at),
        Expr::Mul(a, b) => second_place(first_place(a, SUM, scope, at), b, SUM, scope, at),
        Expr::Less(a, b) => second_place(first_place(a, ORDER, scope, at), b, ORDER, scope, at),
        Expr::LessEq(a, b) => second_place(first_place(a, ORDER, scope, at), b, ORDER, scope, at),
        Expr::Equal(a, b) => {
            let kind = kind_of(a, scope, &at.item(1))?;
            whole(operand(b, kind, scope, &at.item(2)), Kind::Bool)
        }
        Expr::Both(a, b) => second_place(first_place(a, LOGIC, scope, at), b, LOGIC, scope, at),
        Expr::Either(a, b) => second_place(first_place(a, LOGIC, scope, at), b, LOGIC, scope, at),
        Expr::Negate(a) => whole(first_place(a, LOGIC, scope, at), Kind::Bool),
        Expr::Cond(test, a, b) => {
            first_place(test, LOGIC, scope, at)?;
            let kind = kind_of(a, scope, &at.item(2))?;
            whole(operand(b, kind, scope, &at.item(3)), kind)
        }
        Expr::Cat(a, b) => second_place(first_place(a, TEXTS, scope, at), b, TEXTS, scope, at),
        Expr::SetOf(parties) => whole(operands(parties, Kind::Party, scope, at), Kind::Parties),
        Expr::Union(a, b) => second_place(first_place(a, UNION, scope, at), b, UNION, scope, at),
        Expr::Has(a, b) => second_place(first_place(a, MEMBER, scope, at), b, MEMBER, scope, at),
    }
}

/// Tries an expression, whole, in a place of a kind.
#[tactic(auto, unfolding(crate::specs::Walk::expr_at))]
pub(crate) fn check_expr(expr: &Expr, kind: Kind, scope: &Scope, at: &Place) -> Result<(), Stop>
    ensures { Walks (λ _. tt) result (expr_at at.now scope.now kind (expr_form expr.now)) }
{
    let found = kind_of(expr, scope, at)?;
    require(found == kind, CheckKind::WrongKind, at)
}

/// The kinds of expressions, or the first fault of one.
pub(crate) fn kinds_of(exprs: &ExprList, scope: &Scope, at: &Place) -> Result<Vec<Kind>, Stop>
    ensures { Walks (λ kinds. kinds.items) result (kinds_from at.now 0 scope.now [] (list_form exprs.now)) }
{
    let mut kinds = Vec::new(*scope.allocator());
    let exprs = exprs.as_slice();
    'exprs: for i in 0..exprs.len() {
        let here = at.item(i);
        kinds.push(kind_of(&exprs[i], scope, &here)?)?;
    }
    Ok(kinds)
}

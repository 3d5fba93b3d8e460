//! Copies of expressions.
ghost use Rattle.std.specs.Prelude.{◌≡◌, IfOk};
ghost use Rattle.ledger_terms.specs.ExprForms.{expr_form, list_form};
ghost use Rattle.lang_eval.specs.ExprParts.{operation_form};

use crate::expr_parts::{ExprParts, parts};
use crate::forms::both;
use crate::operator::Operator;
use ledger_terms::{Exact, Expr, ExprList};
use std::alloc::AllocError;
use std::boxed::Box;

/// The expression of an operator and two operands.
fn operation(operator: Operator, a: Box<Expr>, b: Box<Expr>) -> Expr
    ensures { expr_form result ≡ operation_form operator (expr_form a.value) (expr_form b.value) }
{
    match operator {
        Operator::Add => Expr::Add(a, b),
        Operator::Subtract => Expr::Sub(a, b),
        Operator::Multiply => Expr::Mul(a, b),
        Operator::Less => Expr::Less(a, b),
        Operator::LessEq => Expr::LessEq(a, b),
        Operator::Equal => Expr::Equal(a, b),
        Operator::Cat => Expr::Cat(a, b),
        Operator::Union => Expr::Union(a, b),
        Operator::Has => Expr::Has(a, b),
    }
}

#[cycle(copy)]
fn copy_boxed(expr: &Box<Expr>) -> Result<Box<Expr>, AllocError>
    ensures { IfOk result (λ e. expr_form e.value ≡ expr_form expr.now.value) }
{
    let copy = Box::new(*Box::allocator(expr), copy_expr(expr)?)?;
    Ok(copy)
}

#[cycle(copy)]
fn copy_list(list: &ExprList) -> Result<ExprList, AllocError>
    ensures { IfOk result (λ l. list_form l ≡ list_form list.now) }
{
    let mut copy = ExprList::new(*list.allocator());
    for expr in list.as_slice() {
        copy.push(copy_expr(expr)?)?;
    }
    Ok(copy)
}

/// Another expression of the same form.
#[cycle(copy)]
#[tactic(auto, using(ledger_terms::proofs::ExprRows::form_SetOf))]
pub(crate) fn copy_expr(expr: &Expr) -> Result<Expr, AllocError>
    ensures { IfOk result (λ e. expr_form e ≡ expr_form expr.now) }
{
    match parts(expr) {
        ExprParts::Literal(value) => Ok(Expr::Literal(value.copied()?)),
        ExprParts::Var(name) => Ok(Expr::Var(name.clone()?)),
        ExprParts::Operation(operator, a, b) => {
            let (a, b) = both(copy_boxed(a), copy_boxed(b))?;
            Ok(operation(operator, a, b))
        }
        ExprParts::Both(a, b) => {
            let (a, b) = both(copy_boxed(a), copy_boxed(b))?;
            Ok(Expr::Both(a, b))
        }
        ExprParts::Either(a, b) => {
            let (a, b) = both(copy_boxed(a), copy_boxed(b))?;
            Ok(Expr::Either(a, b))
        }
        ExprParts::Negate(a) => Ok(Expr::Negate(copy_boxed(a)?)),
        ExprParts::Cond(test, first, second) => {
            let ((test, first), second) = both(
                both(copy_boxed(test), copy_boxed(first)),
                copy_boxed(second),
            )?;
            Ok(Expr::Cond(test, first, second))
        }
        ExprParts::SetOf(parties) => Ok(Expr::SetOf(copy_list(parties)?)),
    }
}

//! What expressions are made of.
ghost use Rattle.std.specs.Prelude.{◌≡◌};
ghost use Rattle.ledger_terms.specs.ExprForms.{expr_form};
ghost use Rattle.lang_eval.specs.ExprParts.{parts_form};

use crate::operator::Operator;
use ledger_terms::{Expr, ExprList, Text, Value};
use std::boxed::Box;

/// The parts of an expression, of one form for all operators that are applied to the values of two operands.
#[derive(Clone, Copy)]
pub(crate) enum ExprParts<'a> {
    Literal(&'a Value),
    Var(&'a Text),
    Operation(Operator, &'a Box<Expr>, &'a Box<Expr>),
    Both(&'a Box<Expr>, &'a Box<Expr>),
    Either(&'a Box<Expr>, &'a Box<Expr>),
    Negate(&'a Box<Expr>),
    Cond(&'a Box<Expr>, &'a Box<Expr>, &'a Box<Expr>),
    SetOf(&'a ExprList),
}

/// The parts of an expression. Where they are taken apart at once, nothing is left of them.
#[inline(always)]
#[tactic(auto, using(ledger_terms::proofs::ExprRows::form_SetOf))]
pub(crate) fn parts(expr: &Expr) -> ExprParts<'_>
    ensures { parts_form result ≡ expr_form expr.now }
{
    match expr {
        Expr::Literal(value) => ExprParts::Literal(value),
        Expr::Var(name) => ExprParts::Var(name),
        Expr::Add(a, b) => ExprParts::Operation(Operator::Add, a, b),
        Expr::Sub(a, b) => ExprParts::Operation(Operator::Subtract, a, b),
        Expr::Mul(a, b) => ExprParts::Operation(Operator::Multiply, a, b),
        Expr::Less(a, b) => ExprParts::Operation(Operator::Less, a, b),
        Expr::LessEq(a, b) => ExprParts::Operation(Operator::LessEq, a, b),
        Expr::Equal(a, b) => ExprParts::Operation(Operator::Equal, a, b),
        Expr::Both(a, b) => ExprParts::Both(a, b),
        Expr::Either(a, b) => ExprParts::Either(a, b),
        Expr::Negate(a) => ExprParts::Negate(a),
        Expr::Cond(test, first, second) => ExprParts::Cond(test, first, second),
        Expr::Cat(a, b) => ExprParts::Operation(Operator::Cat, a, b),
        Expr::SetOf(parties) => ExprParts::SetOf(parties),
        Expr::Union(a, b) => ExprParts::Operation(Operator::Union, a, b),
        Expr::Has(a, b) => ExprParts::Operation(Operator::Has, a, b),
    }
}

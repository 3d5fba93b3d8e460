//! Expressions of the contract language.

use crate::list::ListOf;
use crate::text::Text;
use crate::value::Value;
use std::boxed::Box;

/// An expression.
#[derive(Drop)]
pub enum Expr {
    Literal(Value),
    Var(Text),
    Add(Box<Expr>, Box<Expr>),
    Sub(Box<Expr>, Box<Expr>),
    Mul(Box<Expr>, Box<Expr>),
    Less(Box<Expr>, Box<Expr>),
    LessEq(Box<Expr>, Box<Expr>),
    Equal(Box<Expr>, Box<Expr>),
    Both(Box<Expr>, Box<Expr>),
    Either(Box<Expr>, Box<Expr>),
    Negate(Box<Expr>),
    Cond(Box<Expr>, Box<Expr>, Box<Expr>),
    Cat(Box<Expr>, Box<Expr>),
    SetOf(ExprList),
    Union(Box<Expr>, Box<Expr>),
    Has(Box<Expr>, Box<Expr>),
}

/// Expressions in order.
pub type ExprList = ListOf<Expr>;

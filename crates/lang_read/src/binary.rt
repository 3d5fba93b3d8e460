//! Operators of two operands.
ghost use Rattle.std.specs.Prelude.{◌≡◌};
ghost use Rattle.ledger_terms.specs.ExprForms.{expr_form};
ghost use Rattle.lang_read.specs.Operators.{binary_named, binary_form};

use ledger_terms::Expr;
use std::boxed::Box;

/// An operator of two operands; `Both` and `Either` are `and` and `or`, `Cat` joins texts, `Union` and `Has` are of sets of parties.
#[derive(Clone, Copy)]
pub enum Binary {
    Add,
    Sub,
    Mul,
    Less,
    LessEq,
    Equal,
    Both,
    Either,
    Cat,
    Union,
    Has,
}

/// The operator of two operands that a word names, as `add`; None where it names none of these, as `not`, `if`, `set` and `var` do.
#[tactic(auto, unfolding(crate::specs::Operators::binary_named))]
pub fn binary_named(word: &str) -> Option<Binary>
    ensures { result ≡ binary_named word.now }
{
    match word {
        "add" => Some(Binary::Add),
        "sub" => Some(Binary::Sub),
        "mul" => Some(Binary::Mul),
        "lt" => Some(Binary::Less),
        "le" => Some(Binary::LessEq),
        "eq" => Some(Binary::Equal),
        "and" => Some(Binary::Both),
        "or" => Some(Binary::Either),
        "cat" => Some(Binary::Cat),
        "union" => Some(Binary::Union),
        "has" => Some(Binary::Has),
        _ => None,
    }
}

/// The expression that an operator makes of its two operands, in order.
pub fn binary_expr(operator: Binary, first: Box<Expr>, second: Box<Expr>) -> Expr
    ensures { expr_form result ≡ binary_form operator (expr_form first.value) (expr_form second.value) }
{
    match operator {
        Binary::Add => Expr::Add(first, second),
        Binary::Sub => Expr::Sub(first, second),
        Binary::Mul => Expr::Mul(first, second),
        Binary::Less => Expr::Less(first, second),
        Binary::LessEq => Expr::LessEq(first, second),
        Binary::Equal => Expr::Equal(first, second),
        Binary::Both => Expr::Both(first, second),
        Binary::Either => Expr::Either(first, second),
        Binary::Cat => Expr::Cat(first, second),
        Binary::Union => Expr::Union(first, second),
        Binary::Has => Expr::Has(first, second),
    }
}

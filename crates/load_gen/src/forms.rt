//! Small parts of a package: expressions and declarations.
ghost use Rattle.std.specs.Prelude.{◌≡◌, pos, IfOk, Ok};
ghost use Rattle.ledger_terms.specs.ExprForms.{expr_form};
ghost use Rattle.ledger_terms.specs.Syntax.{Var, SetOf, NoExprs, Literal};
ghost use Rattle.ledger_terms.specs.declared.value.Value.TheVariants.{Int as IntValue};
ghost use Rattle.lang_eval.specs.Builtin.{one_party, declared};
ghost use Rattle.load_gen.specs.Iou.{is_positive};

use ledger_terms::{Expr, ExprList, FieldDecl, Kind, Name, Text, Value};
use std::alloc::{AllocError, Global};
use std::boxed::Box;

/// The values of two calls that want memory, or want of memory where one of them wants it.
pub(crate) fn both<A: Drop, B: Drop>(
    first: Result<A, AllocError>,
    second: Result<B, AllocError>,
) -> Result<(A, B), AllocError>
    ensures { IfOk result (λ p. (first ≡ Ok p.0) × (second ≡ Ok p.1)) }
{
    Ok((first?, second?))
}

/// The expression of the variable with this name, as `this.owner`.
pub(crate) fn variable(alloc: Global, name: &str) -> Result<Expr, AllocError>
    ensures { IfOk result (λ e. expr_form e ≡ Var name.now) }
{
    Ok(Expr::Var(Text::of(alloc, name)?))
}

/// The expression of a whole number.
pub(crate) fn integer(number: i64) -> Expr
    ensures { expr_form result ≡ Literal (IntValue number) }
{
    Expr::Literal(Value::Int(number))
}

/// The expression of a set with one party, the value of the variable with this name.
#[tactic(auto, using(ledger_terms::proofs::ExprRows::form_SetOf))]
pub(crate) fn one_party(alloc: Global, name: &str) -> Result<Expr, AllocError>
    ensures { IfOk result (λ e. expr_form e ≡ one_party name.now) }
{
    let mut parties = ExprList::new(alloc);
    parties.push(variable(alloc, name)?)?;
    Ok(Expr::SetOf(parties))
}

/// The expression of the empty set of parties.
#[tactic(auto, using(ledger_terms::proofs::ExprRows::form_SetOf))]
pub(crate) fn no_parties(alloc: Global) -> Expr
    ensures { expr_form result ≡ SetOf NoExprs }
{
    Expr::SetOf(ExprList::new(alloc))
}

/// The expression that the variable with this name is above 0.
pub(crate) fn is_positive(alloc: Global, name: &str) -> Result<Expr, AllocError>
    ensures { IfOk result (λ e. expr_form e ≡ is_positive name.now) }
{
    let (zero, number) = both(Ok(integer(0)), variable(alloc, name))?;
    Ok(Expr::Less(Box::new(alloc, zero)?, Box::new(alloc, number)?))
}

/// The declaration of a field or a parameter with this name and of this kind.
pub(crate) fn field(name: Name, kind: Kind) -> FieldDecl
    ensures { result ≡ declared name kind }
{
    FieldDecl { name, kind }
}

//! The choices of the package Iou.
ghost use Rattle.std.specs.Prelude.{◌≡◌, codes, pos, IfOk};
ghost use Rattle.ledger_terms.specs.ExprForms.{expr_form, list_form};
ghost use Rattle.ledger_terms.specs.StmtForms.{stmt_form, stmt_list_form};
ghost use Rattle.ledger_terms.specs.Syntax.{Add, Sub, Literal, Var, MoreExprs, NoExprs, MoreStmts, NoStmts};
ghost use Rattle.ledger_terms.specs.declared.value.Value.TheVariants.{Int as IntValue};
ghost use Rattle.load_gen.specs.Iou.{iou_template_name, loop_template_name, transfer_name, choice_with, new_iou, transfer_form, grow_form};
ghost use Rattle.load_gen.specs.Iou.{again, down_form, down_body};

use crate::forms::{both, field, integer, is_positive, no_parties, one_party, variable};
use ledger_terms::{
    Choice, Expr, ExprList, FieldDecl, FieldDeclList, Kind, Name, Stmt, StmtList, TemplateName,
    Value,
};
use std::alloc::{AllocError, Global};
use std::boxed::Box;

/// The name Iou, of the package and of its first template.
pub(crate) fn iou_name() -> Name
    ensures { result ≡ codes "Iou" }
{
    Name::read("Iou").unwrap()
}

/// The name of the template of debts.
pub(crate) fn iou_template_name() -> TemplateName
    ensures { result ≡ iou_template_name }
{
    TemplateName {
        package: iou_name(),
        name: iou_name(),
    }
}

/// The template whose choice calls itself.
fn loop_template_name() -> TemplateName
    ensures { result ≡ loop_template_name }
{
    TemplateName {
        package: iou_name(),
        name: Name::read("Loop").unwrap(),
    }
}

/// The name of the choice by which a debt gets a new owner.
pub(crate) fn transfer_name() -> Name
    ensures { result ≡ transfer_name }
{
    Name::read("Transfer").unwrap()
}

fn only(alloc: Global, stmt: Stmt) -> Result<StmtList, AllocError>
    ensures { IfOk result (λ l. stmt_list_form l ≡ MoreStmts (stmt_form stmt) NoStmts) }
{
    let mut body = StmtList::new(alloc);
    body.push(stmt)?;
    Ok(body)
}

/// A choice with one parameter, without observers, that gives nothing. `controller` is the variable of who controls it.
fn choice_with(
    alloc: Global,
    name: Name,
    consuming: bool,
    param: FieldDecl,
    controller: &str,
    body: StmtList,
) -> Result<Choice, AllocError>
    ensures { IfOk result (λ c. c ≡ choice_with name consuming param controller.now (stmt_list_form body)) }
{
    let mut params = FieldDeclList::new(alloc);
    params.push(param)?;
    Ok(Choice {
        name,
        consuming,
        params,
        controllers: one_party(alloc, controller)?,
        observers: no_parties(alloc),
        returns: Kind::Unit,
        body,
        result: Expr::Literal(Value::Unit),
    })
}

/// The debt in place of this one.
fn new_iou(alloc: Global, owner: &str, amount: Expr) -> Result<Stmt, AllocError>
    ensures { IfOk result (λ s. stmt_form s ≡ new_iou (Var owner.now) (expr_form amount)) }
{
    let mut fields = ExprList::new(alloc);
    fields.push(variable(alloc, "this.issuer")?)?;
    fields.push(variable(alloc, owner)?)?;
    fields.push(amount)?;
    Ok(Stmt::Create {
        bind: Name::read("x").unwrap(),
        template: iou_template_name(),
        fields,
    })
}

/// The choice Transfer, by which the owner of a debt gives it a new owner.
pub(crate) fn transfer(alloc: Global) -> Result<Choice, AllocError>
    ensures { IfOk result (λ c. c ≡ transfer_form) }
{
    let param = field(Name::read("to").unwrap(), Kind::Party);
    let stmt = new_iou(alloc, "arg.to", variable(alloc, "this.amount")?)?;
    let body = only(alloc, stmt)?;
    choice_with(alloc, transfer_name(), true, param, "this.owner", body)
}

fn larger_amount(alloc: Global) -> Result<Expr, AllocError>
    ensures { IfOk result (λ e. expr_form e ≡ Add (Var (codes "this.amount")) (Var (codes "arg.by"))) }
{
    let (amount, by) = both(variable(alloc, "this.amount"), variable(alloc, "arg.by"))?;
    Ok(Expr::Add(Box::new(alloc, amount)?, Box::new(alloc, by)?))
}

/// The choice Grow, by which the issuer of a debt adds a number to its amount.
pub(crate) fn grow(alloc: Global) -> Result<Choice, AllocError>
    ensures { IfOk result (λ c. c ≡ grow_form) }
{
    let param = field(Name::read("by").unwrap(), Kind::Int);
    let stmt = new_iou(alloc, "this.owner", larger_amount(alloc)?)?;
    let body = only(alloc, stmt)?;
    choice_with(
        alloc,
        Name::read("Grow").unwrap(),
        true,
        param,
        "this.issuer",
        body,
    )
}

/// The number that is less by one, as the only argument.
fn less_by_one(alloc: Global) -> Result<ExprList, AllocError>
    ensures { IfOk result (λ l. list_form l ≡ MoreExprs (Sub (Var (codes "arg.n")) (Literal (IntValue (pos 1)))) NoExprs) }
{
    let (number, one) = both(variable(alloc, "arg.n"), Ok(integer(1)))?;
    let mut args = ExprList::new(alloc);
    args.push(Expr::Sub(Box::new(alloc, number)?, Box::new(alloc, one)?))?;
    Ok(args)
}

/// The choice once more.
fn again(alloc: Global) -> Result<Stmt, AllocError>
    ensures { IfOk result (λ s. stmt_form s ≡ again) }
{
    let (contract, args) = both(variable(alloc, "self"), less_by_one(alloc))?;
    Ok(Stmt::Exercise {
        bind: Name::read("y").unwrap(),
        template: loop_template_name(),
        contract,
        choice: Name::read("Down").unwrap(),
        args,
    })
}

#[tactic(auto, using(ledger_terms::proofs::StmtRows::form_When))]
fn down_body(alloc: Global) -> Result<StmtList, AllocError>
    ensures { IfOk result (λ l. stmt_list_form l ≡ down_body) }
{
    let (test, yes) = both(is_positive(alloc, "arg.n"), only(alloc, again(alloc)?))?;
    only(
        alloc,
        Stmt::When {
            test,
            yes,
            no: StmtList::new(alloc),
        },
    )
}

/// The choice Down, which calls itself as often as its number says.
pub(crate) fn down(alloc: Global) -> Result<Choice, AllocError>
    ensures { IfOk result (λ c. c ≡ down_form) }
{
    let param = field(Name::read("n").unwrap(), Kind::Int);
    let body = down_body(alloc)?;
    choice_with(
        alloc,
        Name::read("Down").unwrap(),
        false,
        param,
        "this.owner",
        body,
    )
}

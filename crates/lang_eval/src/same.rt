//! Whether two choices say the same, wherever in memory their parts are.
ghost use Rattle.std.specs.Prelude.{◌≡◌, IsTrue};
ghost use Rattle.ledger_terms.specs.ExprForms.{expr_form, list_form};
ghost use Rattle.ledger_terms.specs.StmtForms.{stmt_form, stmt_list_form};
ghost use Rattle.ledger_terms.specs.Syntax.{Bind, Assert, Create, Exercise, Fetch};

use crate::expr_parts::{ExprParts, parts};
use crate::operator::Operator;
use ledger_terms::{
    Choice, Expr, ExprList, FieldDeclList, Kind, Name, Stmt, StmtList, TemplateName, Text, Value,
};

#[tactic(auto, using(crate::proofs::SameChoices::values_same))]
fn same_values(a: &Value, b: &Value) -> bool
    ensures { IsTrue result → a.now ≡ b.now }
{
    *a == *b
}

fn same_texts(a: &Text, b: &Text) -> bool
    ensures { IsTrue result → a.now ≡ b.now }
{
    a.as_str() == b.as_str()
}

fn same_names(a: &Name, b: &Name) -> bool
    ensures { IsTrue result → a.now ≡ b.now }
{
    a.as_bytes() == b.as_bytes()
}

/// Whether two names of templates are one.
pub(crate) fn same_templates(a: &TemplateName, b: &TemplateName) -> bool
    ensures { IsTrue result → a.now ≡ b.now }
{
    same_names(&a.package, &b.package) && same_names(&a.name, &b.name)
}

#[tactic(auto, using(crate::proofs::SameChoices::kinds_same))]
fn same_kinds(a: &Kind, b: &Kind) -> bool
    ensures { IsTrue result → a.now ≡ b.now }
{
    *a == *b
}

#[tactic(auto, using(crate::proofs::SameChoices::decls_same))]
fn same_decls(a: &FieldDeclList, b: &FieldDeclList) -> bool
    ensures { IsTrue result → a.now ≡ b.now }
{
    *a == *b
}

fn same_operators(a: Operator, b: Operator) -> bool
    ensures { IsTrue result → a ≡ b }
{
    match (a, b) {
        (Operator::Add, Operator::Add) => true,
        (Operator::Subtract, Operator::Subtract) => true,
        (Operator::Multiply, Operator::Multiply) => true,
        (Operator::Less, Operator::Less) => true,
        (Operator::LessEq, Operator::LessEq) => true,
        (Operator::Equal, Operator::Equal) => true,
        (Operator::Cat, Operator::Cat) => true,
        (Operator::Union, Operator::Union) => true,
        (Operator::Has, Operator::Has) => true,
        _ => false,
    }
}

#[cycle(exprs)]
fn same_lists(a: &ExprList, b: &ExprList) -> bool
    ensures { IsTrue result → list_form a.now ≡ list_form b.now }
{
    let others = b.as_slice();
    let mut at = 0;
    for expr in a.as_slice() {
        match others.get(at) {
            Some(other) => {
                if !same_exprs(expr, other) {
                    return false;
                }
            }
            None => return false,
        }
        at += 1;
    }
    at == others.len()
}

/// Whether two expressions are of one form.
#[cycle(exprs)]
fn same_exprs(a: &Expr, b: &Expr) -> bool
    ensures { IsTrue result → expr_form a.now ≡ expr_form b.now }
{
    match (parts(a), parts(b)) {
        (ExprParts::Literal(a), ExprParts::Literal(b)) => same_values(a, b),
        (ExprParts::Var(a), ExprParts::Var(b)) => same_texts(a, b),
        (ExprParts::Operation(o, a, c), ExprParts::Operation(p, b, d)) => {
            same_operators(o, p) && same_exprs(a, b) && same_exprs(c, d)
        }
        (ExprParts::Both(a, c), ExprParts::Both(b, d)) => same_exprs(a, b) && same_exprs(c, d),
        (ExprParts::Either(a, c), ExprParts::Either(b, d)) => same_exprs(a, b) && same_exprs(c, d),
        (ExprParts::Negate(a), ExprParts::Negate(b)) => same_exprs(a, b),
        (ExprParts::Cond(a, c, e), ExprParts::Cond(b, d, f)) => {
            same_exprs(a, b) && same_exprs(c, d) && same_exprs(e, f)
        }
        (ExprParts::SetOf(a), ExprParts::SetOf(b)) => same_lists(a, b),
        _ => false,
    }
}

fn is_bind(stmt: &Stmt, name: &Name, value: &Expr) -> bool
    ensures { IsTrue result → stmt_form stmt.now ≡ Bind name.now (expr_form value.now) }
{
    match stmt {
        Stmt::Bind { name: n, value: v } => same_names(n, name) && same_exprs(v, value),
        _ => false,
    }
}

fn is_assert(stmt: &Stmt, test: &Expr) -> bool
    ensures { IsTrue result → stmt_form stmt.now ≡ Assert (expr_form test.now) }
{
    match stmt {
        Stmt::Assert(t) => same_exprs(t, test),
        _ => false,
    }
}

fn is_create(stmt: &Stmt, name: &Name, template: &TemplateName, fields: &ExprList) -> bool
    ensures { IsTrue result → stmt_form stmt.now ≡ Create name.now template.now (list_form fields.now) }
{
    match stmt {
        Stmt::Create {
            bind: n,
            template: t,
            fields: f,
        } => same_names(n, name) && same_templates(t, template) && same_lists(f, fields),
        _ => false,
    }
}

fn is_exercise(
    stmt: &Stmt,
    name: &Name,
    template: &TemplateName,
    contract: &Expr,
    choice: &Name,
    args: &ExprList,
) -> bool
    ensures { IsTrue result → stmt_form stmt.now ≡ Exercise name.now template.now (expr_form contract.now) choice.now (list_form args.now) }
{
    match stmt {
        Stmt::Exercise {
            bind: n,
            template: t,
            contract: e,
            choice: c,
            args: a,
        } => {
            same_names(n, name)
                && same_templates(t, template)
                && same_exprs(e, contract)
                && same_names(c, choice)
                && same_lists(a, args)
        }
        _ => false,
    }
}

fn is_fetch(stmt: &Stmt, name: &Name, template: &TemplateName, contract: &Expr) -> bool
    ensures { IsTrue result → stmt_form stmt.now ≡ Fetch name.now template.now (expr_form contract.now) }
{
    match stmt {
        Stmt::Fetch {
            bind: n,
            template: t,
            contract: e,
        } => same_names(n, name) && same_templates(t, template) && same_exprs(e, contract),
        _ => false,
    }
}

#[cycle(stmts)]
fn same_bodies(a: &StmtList, b: &StmtList) -> bool
    ensures { IsTrue result → stmt_list_form a.now ≡ stmt_list_form b.now }
{
    let others = b.as_slice();
    let mut at = 0;
    for stmt in a.as_slice() {
        match others.get(at) {
            Some(other) => {
                if !same_stmts(stmt, other) {
                    return false;
                }
            }
            None => return false,
        }
        at += 1;
    }
    at == others.len()
}

/// Whether two statements are of one form.
#[cycle(stmts)]
fn same_stmts(a: &Stmt, b: &Stmt) -> bool
    ensures { IsTrue result → stmt_form a.now ≡ stmt_form b.now }
{
    match a {
        Stmt::Bind { name, value } => is_bind(b, name, value),
        Stmt::Assert(test) => is_assert(b, test),
        Stmt::Create {
            bind,
            template,
            fields,
        } => is_create(b, bind, template, fields),
        Stmt::Exercise {
            bind,
            template,
            contract,
            choice,
            args,
        } => is_exercise(b, bind, template, contract, choice, args),
        Stmt::Fetch {
            bind,
            template,
            contract,
        } => is_fetch(b, bind, template, contract),
        Stmt::When { test, yes, no } => match b {
            Stmt::When {
                test: t,
                yes: y,
                no: n,
            } => {
                if !same_exprs(test, t) {
                    return false;
                }
                same_bodies(yes, y) && same_bodies(no, n)
            }
            _ => false,
        },
    }
}

/// Whether two choices say the same.
pub(crate) fn same_choices(a: &Choice, b: &Choice) -> bool
    ensures { IsTrue result → a.now ≡ b.now }
{
    same_names(&a.name, &b.name)
        && a.consuming == b.consuming
        && same_decls(&a.params, &b.params)
        && same_exprs(&a.controllers, &b.controllers)
        && same_exprs(&a.observers, &b.observers)
        && same_kinds(&a.returns, &b.returns)
        && same_bodies(&a.body, &b.body)
        && same_exprs(&a.result, &b.result)
}

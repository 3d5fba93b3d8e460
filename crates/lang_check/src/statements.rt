//! Statements: template, choice, expressions, counts and kinds, and what is bound.
ghost use Rattle.std.specs.Prelude.{◌≡◌, find, option_copied, option_map, codes};
ghost use Rattle.ledger_terms.specs.ExprForms.{expr_form, list_form};
ghost use Rattle.ledger_terms.specs.StmtForms.{stmt_form, stmt_list_form};
ghost use Rattle.ledger_terms.specs.Pointers.{at_member};
ghost use Rattle.lang_eval.specs.Typed.{choice_named};
ghost use Rattle.lang_check.specs.Faults.{Walks};
ghost use Rattle.lang_check.specs.Statements.{bound_at, template_at, signature_of, choice_at, counted_at, fit_from, let_at};
ghost use Rattle.lang_check.specs.Statements.{assert_at, create_at, exercise_at, fetch_at, stmt_at, stmts_from};

use crate::check_kind::CheckKind;
use crate::exercise::Exercise;
use crate::expressions::{check_expr, kind_of, kinds_of};
use crate::faults::{found, require};
use crate::nameable::Nameable;
use crate::scope::Scope;
use crate::signature::Signature;
use crate::stop::Stop;
use json_walk::Place;
use lang_eval::{archive_name, choice_named};
use ledger_terms::{
    Choice, Expr, ExprList, FieldDecl, Kind, Name, Stmt, StmtList, Template, TemplateName, Text,
};

#[tactic(auto, unfolding(crate::specs::Statements::bound_at))]
fn bind(name: Name, kind: Kind, scope: &mut Scope, at: &Place) -> Result<(), Stop>
    ensures { Walks (λ _. scope.new) result (bound_at at.now name kind scope.old) }
{
    let text = Text::of(*scope.allocator(), name.as_str())?;
    require(!scope.has(&text), CheckKind::DuplicateName, at)?;
    scope.bind(text, kind)?;
    Ok(())
}

#[tactic(auto, unfolding(crate::specs::Statements::template_at))]
fn template_of<'p>(
    name: TemplateName,
    packages: &Nameable<'p>,
    at: &Place,
) -> Result<&'p Template, Stop>
    ensures { Walks (λ t. t.now) result (template_at at.now name packages.now) }
{
    match packages.template(name) {
        Some(template) => Ok(template),
        None => found(None, CheckKind::UnknownTemplate, at),
    }
}

fn signature(template: &Template, choice: Name) -> Option<Signature<'_>>
    ensures { option_map (λ s. (s.params.now, s.returns)) result ≡ option_map signature_of (choice_named template.now choice) }
{
    if archive_name() == choice {
        return Some(Signature {
            params: &[],
            returns: Kind::Unit,
        });
    }
    match choice_named(template.choices.as_slice(), choice) {
        Some(choice) => Some(Signature {
            params: choice.params.as_slice(),
            returns: choice.returns,
        }),
        None => None,
    }
}

#[tactic(auto, unfolding(crate::specs::Statements::choice_at))]
fn choice_of<'p>(template: &'p Template, choice: Name, at: &Place) -> Result<Signature<'p>, Stop>
    ensures { Walks (λ s. (s.params.now, s.returns)) result (choice_at at.now template.now choice) }
{
    match signature(template, choice) {
        Some(signature) => Ok(signature),
        None => found(None, CheckKind::UnknownChoice, at),
    }
}

#[tactic(auto, unfolding(crate::specs::Statements::counted_at))]
fn count(kinds: &[Kind], decls: &[FieldDecl], at: &Place) -> Result<(), Stop>
    ensures { Walks (λ _. tt) result (counted_at at.now kinds.now decls.now) }
{
    require(kinds.len() == decls.len(), CheckKind::WrongCount, at)
}

fn fit(kinds: &[Kind], decls: &[FieldDecl], at: &Place) -> Result<(), Stop>
    ensures { Walks (λ _. tt) result (fit_from at.now 0 kinds.now decls.now) }
{
    let mut i = 0;
    'kinds: while i < kinds.len() && i < decls.len() {
        let here = at.item(i);
        require(kinds[i] == decls[i].kind, CheckKind::WrongKind, &here)?;
        i += 1;
    }
    Ok(())
}

#[tactic(auto, unfolding(crate::specs::Statements::let_at))]
fn check_let(name: Name, value: &Expr, scope: &mut Scope, at: &Place) -> Result<(), Stop>
    ensures { Walks (λ _. scope.new) result (let_at (at_member at.now (codes "let")) name (expr_form value.now) scope.old) }
{
    let at = at.member("let");
    let kind = kind_of(value, scope, &at.item(1))?;
    bind(name, kind, scope, &at.item(0))
}

#[tactic(auto, unfolding(crate::specs::Statements::assert_at))]
fn check_assert(test: &Expr, scope: &Scope, at: &Place) -> Result<(), Stop>
    ensures { Walks (λ _. scope.now) result (assert_at (at_member at.now (codes "assert")) (expr_form test.now) scope.now) }
{
    check_expr(test, Kind::Bool, scope, &at.member("assert"))
}

#[tactic(auto, unfolding(crate::specs::Statements::create_at))]
fn check_create(
    bound: Name,
    template: TemplateName,
    fields: &ExprList,
    packages: &Nameable<'_>,
    scope: &mut Scope,
    at: &Place,
) -> Result<(), Stop>
    ensures { Walks (λ _. scope.new) result (create_at (at_member at.now (codes "create")) packages.now bound template (list_form fields.now) scope.old) }
{
    let at = at.member("create");
    let template = template_of(template, packages, &at.member("template"))?;
    let at_fields = at.member("fields");
    let kinds = kinds_of(fields, scope, &at_fields)?;
    count(&kinds, template.fields.as_slice(), &at_fields)?;
    fit(&kinds, template.fields.as_slice(), &at_fields)?;
    bind(bound, Kind::Contract, scope, &at.member("bind"))
}

#[tactic(auto, unfolding(crate::specs::Statements::exercise_at))]
fn check_exercise(
    exercise: &Exercise<'_>,
    packages: &Nameable<'_>,
    scope: &mut Scope,
    at: &Place,
) -> Result<(), Stop>
    ensures { Walks (λ _. scope.new) result (exercise_at (at_member at.now (codes "exercise")) packages.now exercise.now.bound exercise.now.template
        (expr_form exercise.now.contract.now) exercise.now.choice (list_form exercise.now.args.now) scope.old) }
{
    let at = at.member("exercise");
    let template = template_of(exercise.template, packages, &at.member("template"))?;
    let signature = choice_of(template, exercise.choice, &at.member("choice"))?;
    let at_contract = at.member("contract");
    let kind = kind_of(exercise.contract, scope, &at_contract)?;
    let at_args = at.member("args");
    let kinds = kinds_of(exercise.args, scope, &at_args)?;
    count(&kinds, signature.params, &at_args)?;
    require(kind == Kind::Contract, CheckKind::WrongKind, &at_contract)?;
    fit(&kinds, signature.params, &at_args)?;
    bind(exercise.bound, signature.returns, scope, &at.member("bind"))
}

#[tactic(auto, unfolding(crate::specs::Statements::fetch_at))]
fn check_fetch(
    bound: Name,
    template: TemplateName,
    contract: &Expr,
    packages: &Nameable<'_>,
    scope: &mut Scope,
    at: &Place,
) -> Result<(), Stop>
    ensures { Walks (λ _. scope.new) result (fetch_at (at_member at.now (codes "fetch")) packages.now bound template (expr_form contract.now) scope.old) }
{
    let at = at.member("fetch");
    let template = template_of(template, packages, &at.member("template"))?;
    check_expr(contract, Kind::Contract, scope, &at.member("contract"))?;
    let mut fields = Scope::new(*scope.allocator());
    fields.declare(bound.as_str(), template.fields.as_slice())?;
    let at_bind = at.member("bind");
    require(
        !scope.has_one_of(&fields),
        CheckKind::DuplicateName,
        &at_bind,
    )?;
    scope.declare(bound.as_str(), template.fields.as_slice())?;
    Ok(())
}

/// A side of a `when`, whose names end with it.
#[cycle(stmts)]
fn check_side(
    stmts: &StmtList,
    packages: &Nameable<'_>,
    scope: &Scope,
    at: &Place,
) -> Result<Scope, Stop>
    ensures { Walks (λ s. s) result (stmts_from at.now 0 packages.now (stmt_list_form stmts.now) scope.now) }
{
    let mut inside = scope.copy()?;
    check_stmts(stmts, packages, &mut inside, at)?;
    Ok(inside)
}

#[cycle(stmts)]
#[tactic(auto, using(ledger_terms::proofs::StmtRows::form_When))]
fn check_stmt(
    stmt: &Stmt,
    packages: &Nameable<'_>,
    scope: &mut Scope,
    at: &Place,
) -> Result<(), Stop>
    ensures { Walks (λ _. scope.new) result (stmt_at at.now packages.now (stmt_form stmt.now) scope.old) }
{
    match stmt {
        Stmt::Bind { name, value } => check_let(*name, value, scope, at),
        Stmt::Assert(test) => check_assert(test, scope, at),
        Stmt::Create {
            bind,
            template,
            fields,
        } => check_create(*bind, *template, fields, packages, scope, at),
        Stmt::Exercise {
            bind,
            template,
            contract,
            choice,
            args,
        } => {
            let exercise = Exercise::of(*bind, *template, contract, *choice, args);
            check_exercise(&exercise, packages, scope, at)
        }
        Stmt::Fetch {
            bind,
            template,
            contract,
        } => check_fetch(*bind, *template, contract, packages, scope, at),
        Stmt::When { test, yes, no } => {
            let at = at.member("when");
            check_expr(test, Kind::Bool, scope, &at.member("if"))?;
            check_side(yes, packages, scope, &at.member("then"))?;
            check_side(no, packages, scope, &at.member("else"))?;
            Ok(())
        }
    }
}

/// Tries statements in order; what they bind comes into scope.
#[cycle(stmts)]
pub(crate) fn check_stmts(
    stmts: &StmtList,
    packages: &Nameable<'_>,
    scope: &mut Scope,
    at: &Place,
) -> Result<(), Stop>
    ensures { Walks (λ _. scope.new) result (stmts_from at.now 0 packages.now (stmt_list_form stmts.now) scope.old) }
{
    let stmts = stmts.as_slice();
    'stmts: for i in 0..stmts.len() {
        let here = at.item(i);
        check_stmt(&stmts[i], packages, scope, &here)?;
    }
    Ok(())
}

//! Choices and templates.
ghost use Rattle.std.specs.Prelude.{◌≡◌, [], IfOk, codes};
ghost use Rattle.ledger_terms.specs.ExprForms.{expr_form};
ghost use Rattle.ledger_terms.specs.Pointers.{at_item, at_member};
ghost use Rattle.lang_eval.specs.Typed.{decl_names, this_scope, choice_scope, body_scope};
ghost use Rattle.lang_check.specs.Faults.{Walks};
ghost use Rattle.lang_check.specs.Walk.{expr_at};
ghost use Rattle.lang_check.specs.Statements.{is_among};
ghost use Rattle.lang_check.specs.Declarations.{named_at, names_from, choice_name_at, choice_parties_at, choice_body_at, choice_from};
ghost use Rattle.lang_check.specs.Declarations.{choices_from, template_parties_at, template_exprs_at, template_from, templates_from};

use crate::check_kind::CheckKind;
use crate::expressions::check_expr;
use crate::faults::require;
use crate::nameable::Nameable;
use crate::scope::Scope;
use crate::statements::check_stmts;
use crate::stop::Stop;
use json_walk::Place;
use lang_eval::archive_name;
use ledger_terms::{Choice, Expr, FieldDecl, Kind, Name, NameList, Template, Text};
use std::alloc::{AllocError, Global};

fn is_taken(names: &[Name], name: Name) -> bool
    ensures { result ≡ is_among name names.now }
{
    names.iter().any(|taken| *taken == name)
}

/// Takes a name that is declared, which stands at `at`.
#[tactic(auto, unfolding(crate::specs::Declarations::named_at))]
fn take_name(name: Name, taken: &mut NameList, at: &Place) -> Result<(), Stop>
    ensures { Walks (λ _. taken.new) result (named_at at.now name taken.old) }
{
    let again = is_taken(taken.as_slice(), name);
    require(!again, CheckKind::DuplicateName, at)?;
    taken.push(name)?;
    Ok(())
}

/// Takes the name of the object at `index` of the list at `at`.
pub(crate) fn take_name_of(
    name: Name,
    taken: &mut NameList,
    at: &Place,
    index: usize,
) -> Result<(), Stop>
    ensures { Walks (λ _. taken.new) result (named_at (at_member (at_item at.now index) (codes "name")) name taken.old) }
{
    let here = at.item(index);
    take_name(name, taken, &here.member("name"))
}

fn check_decls(alloc: Global, decls: &[FieldDecl], at: &Place) -> Result<(), Stop>
    ensures { Walks (λ _. tt) result (names_from at.now 0 [] (decl_names decls.now)) }
{
    let mut taken = NameList::new(alloc);
    'decls: for i in 0..decls.len() {
        take_name_of(decls[i].name, &mut taken, at, i)?;
    }
    Ok(())
}

/// Tries the expression of a member of the object at `at`.
fn check_member(name: &str, expr: &Expr, kind: Kind, scope: &Scope, at: &Place) -> Result<(), Stop>
    ensures { Walks (λ _. tt) result (expr_at (at_member at.now name.now) scope.now kind (expr_form expr.now)) }
{
    let here = at.member(name);
    check_expr(expr, kind, scope, &here)
}

fn template_names(alloc: Global, template: &Template) -> Result<Scope, AllocError>
    ensures { IfOk result (λ s. s ≡ this_scope template.now) }
{
    let mut scope = Scope::new(alloc);
    scope.declare("this", template.fields.as_slice())?;
    Ok(scope)
}

fn choice_names(alloc: Global, template: &Template, choice: &Choice) -> Result<Scope, AllocError>
    ensures { IfOk result (λ s. s ≡ choice_scope template.now choice.now) }
{
    let mut scope = template_names(alloc, template)?;
    scope.declare("arg", choice.params.as_slice())?;
    Ok(scope)
}

fn body_names(alloc: Global, template: &Template, choice: &Choice) -> Result<Scope, AllocError>
    ensures { IfOk result (λ s. s ≡ body_scope template.now choice.now) }
{
    let mut scope = Scope::new(alloc);
    scope.bind(Text::of(alloc, "self")?, Kind::Contract)?;
    scope.declare("this", template.fields.as_slice())?;
    scope.declare("arg", choice.params.as_slice())?;
    Ok(scope)
}

#[tactic(auto, unfolding(crate::specs::Declarations::choice_name_at))]
fn check_name(choice: &Choice, taken: &mut NameList, at: &Place) -> Result<(), Stop>
    ensures { Walks (λ _. taken.new) result (choice_name_at (at_member at.now (codes "name")) choice.now.name taken.old) }
{
    let here = at.member("name");
    take_name(choice.name, taken, &here)?;
    require(archive_name() != choice.name, CheckKind::Reserved, &here)
}

#[tactic(auto, unfolding(crate::specs::Declarations::choice_parties_at))]
fn check_parties(
    alloc: Global,
    template: &Template,
    choice: &Choice,
    at: &Place,
) -> Result<(), Stop>
    ensures { Walks (λ _. tt) result (choice_parties_at at.now template.now choice.now) }
{
    let scope = choice_names(alloc, template, choice)?;
    check_member(
        "controllers",
        &choice.controllers,
        Kind::Parties,
        &scope,
        at,
    )?;
    check_member("observers", &choice.observers, Kind::Parties, &scope, at)
}

#[tactic(auto, unfolding(crate::specs::Declarations::choice_body_at))]
fn check_body(
    alloc: Global,
    template: &Template,
    choice: &Choice,
    packages: &Nameable<'_>,
    at: &Place,
) -> Result<(), Stop>
    ensures { Walks (λ _. tt) result (choice_body_at at.now packages.now template.now choice.now) }
{
    let mut scope = body_names(alloc, template, choice)?;
    check_stmts(&choice.body, packages, &mut scope, &at.member("body"))?;
    check_member("result", &choice.result, choice.returns, &scope, at)
}

#[tactic(auto, unfolding(crate::specs::Declarations::choice_from))]
fn check_choice(
    alloc: Global,
    template: &Template,
    choice: &Choice,
    packages: &Nameable<'_>,
    taken: &mut NameList,
    at: &Place,
) -> Result<(), Stop>
    ensures { Walks (λ _. taken.new) result (choice_from at.now packages.now template.now choice.now taken.old) }
{
    check_name(choice, taken, at)?;
    check_decls(alloc, choice.params.as_slice(), &at.member("params"))?;
    check_parties(alloc, template, choice, at)?;
    check_body(alloc, template, choice, packages, at)
}

fn check_choices(
    alloc: Global,
    template: &Template,
    packages: &Nameable<'_>,
    at: &Place,
) -> Result<(), Stop>
    ensures { Walks (λ _. tt) result (choices_from at.now 0 packages.now template.now [] template.now.choices) }
{
    let mut taken = NameList::new(alloc);
    let choices = template.choices.as_slice();
    'choices: for i in 0..choices.len() {
        let here = at.item(i);
        check_choice(alloc, template, &choices[i], packages, &mut taken, &here)?;
    }
    Ok(())
}

#[tactic(auto, unfolding(crate::specs::Declarations::template_parties_at))]
fn check_stakeholders(template: &Template, scope: &Scope, at: &Place) -> Result<(), Stop>
    requires { scope.now ≡ this_scope template.now }
    ensures { Walks (λ _. tt) result (template_parties_at at.now template.now) }
{
    check_member(
        "signatories",
        &template.signatories,
        Kind::Parties,
        scope,
        at,
    )?;
    check_member("observers", &template.observers, Kind::Parties, scope, at)
}

#[tactic(auto, unfolding(crate::specs::Declarations::template_exprs_at))]
fn check_template_exprs(alloc: Global, template: &Template, at: &Place) -> Result<(), Stop>
    ensures { Walks (λ _. tt) result (template_exprs_at at.now template.now) }
{
    let scope = template_names(alloc, template)?;
    check_member("ensure", &template.ensure, Kind::Bool, &scope, at)?;
    check_stakeholders(template, &scope, at)
}

#[tactic(auto, unfolding(crate::specs::Declarations::template_from))]
fn check_template(
    alloc: Global,
    template: &Template,
    packages: &Nameable<'_>,
    at: &Place,
) -> Result<(), Stop>
    ensures { Walks (λ _. tt) result (template_from at.now packages.now template.now) }
{
    check_decls(alloc, template.fields.as_slice(), &at.member("fields"))?;
    check_template_exprs(alloc, template, at)?;
    check_choices(alloc, template, packages, &at.member("choices"))
}

/// Tries templates in order, but for their names.
pub(crate) fn check_templates(
    alloc: Global,
    templates: &[Template],
    packages: &Nameable<'_>,
    at: &Place,
) -> Result<(), Stop>
    ensures { Walks (λ _. tt) result (templates_from at.now 0 packages.now templates.now) }
{
    'templates: for i in 0..templates.len() {
        let here = at.item(i);
        check_template(alloc, &templates[i], packages, &here)?;
    }
    Ok(())
}

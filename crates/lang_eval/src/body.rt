//! What a choice's body does next.
ghost use Rattle.std.specs.Prelude.{◌≡◌, ◌≢◌, [], Err, OnOk};
ghost use Rattle.ledger_terms.specs.Answers.{UnlessMemory};
ghost use Rattle.ledger_terms.specs.ExprForms.{expr_form, list_form};
ghost use Rattle.ledger_terms.specs.StmtForms.{stmt_form, stmt_list_form};
ghost use Rattle.lang_eval.specs.Names.{bound_to, with_fields, with_this};
ghost use Rattle.lang_eval.specs.Found.{template_in, fields_of};
ghost use Rattle.lang_eval.specs.Spellings.{owner_word};
ghost use Rattle.lang_eval.specs.Next.{Stopped, Went, on_value, asserted, taken, create_step, exercise_step, fetch_step, ran, ran_all, next};
ghost use Rattle.lang_eval.specs.Next.{next_of, names_of, ended, closed, id_of, value_seen, fields_seen};
ghost use Rattle.lang_eval.specs.Value.{val, vals, truth};
ghost use Rattle.lang_eval.specs.RunAnswers.{shown};

use crate::bindings::Bindings;
use crate::bound_fields::BoundFields;
use crate::bound_name::BoundName;
use crate::checked::{Checked, choice_of};
use crate::eval_fault::EvalFault;
use crate::evaluate::{eval_expr, eval_list, eval_test};
use crate::given_names::GivenNames;
use crate::held_value::HeldValue;
use crate::owner::Owner;
use crate::run::Run;
use ledger_model::{ChildResult, ChildResultList, ChoiceCall, Step};
use ledger_terms::{
    Choice, Expr, ExprList, FieldDecl, Hash, Instance, Name, Stmt, StmtList, Template,
    TemplateName, Value,
};
use std::alloc::{AllocError, Global};

/// Binds each value under the name of its field.
fn bind_fields<'a>(
    names: &mut Bindings<'a>,
    owner: &Owner,
    decls: &[FieldDecl],
    values: &'a [Value],
) -> Result<(), AllocError>
    ensures { OnOk result (names.new ≡ with_fields (owner_word owner.now) decls.now values.now names.old) }
{
    names.reserve(values.len())?;
    let mut at = 0;
    while at < decls.len() && at < values.len() {
        let value = HeldValue::given(&values[at]);
        names.bind_held(BoundName::field(*owner, decls[at].name), value)?;
        at += 1;
    }
    Ok(())
}

fn seen_value(seen: &ChildResult) -> HeldValue<'_>
    ensures { result ≡ value_seen seen.now }
{
    match seen {
        ChildResult::Created(id) => HeldValue::made(Value::Contract(*id)),
        ChildResult::Returned(value) => HeldValue::given(value),
        ChildResult::Fetched(_) => HeldValue::made(Value::Unit),
    }
}

fn seen_fields(seen: &ChildResult) -> &[Value]
    ensures { result.now ≡ fields_seen seen.now }
{
    match seen {
        ChildResult::Fetched(instance) => instance.fields.as_slice(),
        _ => &[],
    }
}

fn fields(checked: &Checked, template: TemplateName) -> &[FieldDecl]
    ensures { result.now ≡ fields_of (template_in template checked.now) }
{
    match checked.template(template) {
        Some(template) => template.fields.as_slice(),
        None => &[],
    }
}

fn eval_id(contract: &Expr, names: &Bindings<'_>) -> Result<Hash, EvalFault>
    ensures { UnlessMemory EvalFault.Memory result (id_of (expr_form contract.now) names.now) }
{
    match eval_expr(contract, names)? {
        Value::Contract(id) => Ok(id),
        _ => Err(EvalFault::Assert),
    }
}

fn run_bind<'s>(
    name: Name,
    value: &Expr,
    names: &mut Bindings<'s>,
    seen: &'s [ChildResult],
) -> Result<Run<'s>, EvalFault>
    ensures { result ≢ Err EvalFault.Memory
        → shown result names.new ≡ on_value (val (expr_form value.now) names.old) (λ v. Went (bound_to name v names.old) seen.now) }
{
    let value = eval_expr(value, names)?;
    names.bind_as(BoundName::plain(name), value)?;
    Ok(Run::Went(seen))
}

fn run_assert<'s>(
    test: &Expr,
    names: &Bindings<'_>,
    seen: &'s [ChildResult],
) -> Result<Run<'s>, EvalFault>
    ensures { result ≢ Err EvalFault.Memory
        → shown result names.now ≡ on_value (truth (expr_form test.now) names.now) (λ b. asserted b (Went names.now seen.now)) }
{
    if eval_test(test, names)? {
        Ok(Run::Went(seen))
    } else {
        Err(EvalFault::Assert)
    }
}

/// After a child that gave a value, which is bound.
fn run_value<'s>(
    name: Name,
    child: &'s ChildResult,
    rest: &'s [ChildResult],
    names: &mut Bindings<'s>,
) -> Result<Run<'s>, EvalFault>
    ensures { result ≢ Err EvalFault.Memory → shown result names.new ≡ Went (bound_to name (value_seen child.now) names.old) rest.now }
{
    names.bind_held(BoundName::plain(name), seen_value(child))?;
    Ok(Run::Went(rest))
}

/// After a child that gave a contract, whose fields are bound.
fn run_fields<'s>(
    name: Name,
    decls: &[FieldDecl],
    child: &'s ChildResult,
    rest: &'s [ChildResult],
    names: &mut Bindings<'s>,
) -> Result<Run<'s>, EvalFault>
    ensures { result ≢ Err EvalFault.Memory → shown result names.new ≡ Went (with_fields name decls.now (fields_seen child.now) names.old) rest.now }
{
    bind_fields(names, &Owner::Fetched(name), decls, seen_fields(child))?;
    Ok(Run::Went(rest))
}

fn next_create<'s>(
    template: TemplateName,
    fields: &ExprList,
    names: &Bindings<'_>,
) -> Result<Run<'s>, EvalFault>
    ensures { result ≢ Err EvalFault.Memory → shown result names.now ≡ Stopped (create_step template (vals (list_form fields.now) names.now)) }
{
    let fields = eval_list(fields, names)?;
    Ok(Run::Stopped(Step::Create { template, fields }))
}

/// A create, after its child or before it.
fn run_create<'s>(
    name: Name,
    template: TemplateName,
    fields: &ExprList,
    names: &mut Bindings<'s>,
    seen: &'s [ChildResult],
) -> Result<Run<'s>, EvalFault>
    ensures { result ≢ Err EvalFault.Memory
        → shown result names.new ≡ taken (create_step template (vals (list_form fields.now) names.old))
        (λ s. bound_to name (value_seen s) names.old) seen.now }
{
    match seen.split_first() {
        Some((child, rest)) => run_value(name, child, rest, names),
        None => next_create(template, fields, names),
    }
}

fn next_exercise<'s>(
    template: TemplateName,
    contract: &Expr,
    choice: Name,
    args: &ExprList,
    names: &Bindings<'_>,
) -> Result<Run<'s>, EvalFault>
    ensures { result ≢ Err EvalFault.Memory
        → shown result names.now ≡ Stopped (exercise_step template choice (id_of (expr_form contract.now) names.now) (vals (list_form args.now) names.now)) }
{
    let id = eval_id(contract, names)?;
    let args = eval_list(args, names)?;
    Ok(Run::Stopped(Step::Exercise {
        template,
        id,
        choice,
        args,
    }))
}

fn next_fetch<'s>(
    template: TemplateName,
    contract: &Expr,
    names: &Bindings<'_>,
) -> Result<Run<'s>, EvalFault>
    ensures { result ≢ Err EvalFault.Memory → shown result names.now ≡ Stopped (fetch_step template (id_of (expr_form contract.now) names.now)) }
{
    let id = eval_id(contract, names)?;
    Ok(Run::Stopped(Step::Fetch { template, id }))
}

/// A fetch, after its child or before it.
fn run_fetch<'s>(
    name: Name,
    template: TemplateName,
    contract: &Expr,
    checked: &Checked,
    names: &mut Bindings<'s>,
    seen: &'s [ChildResult],
) -> Result<Run<'s>, EvalFault>
    ensures { result ≢ Err EvalFault.Memory → shown result names.new
        ≡ taken (fetch_step template (id_of (expr_form contract.now) names.old))
        (λ s. with_fields name (fields_of (template_in template checked.now)) (fields_seen s) names.old) seen.now }
{
    match seen.split_first() {
        Some((child, rest)) => { run_fields(name, fields(checked, template), child, rest, names) }
        None => next_fetch(template, contract, names),
    }
}

#[cycle(run)]
fn run_stmt<'s>(
    stmt: &Stmt,
    checked: &Checked,
    names: &mut Bindings<'s>,
    seen: &'s [ChildResult],
) -> Result<Run<'s>, EvalFault>
    ensures { result ≢ Err EvalFault.Memory → shown result names.new ≡ ran (stmt_form stmt.now) checked.now names.old seen.now }
{
    match stmt {
        Stmt::Bind { name, value } => run_bind(*name, value, names, seen),
        Stmt::Assert(test) => run_assert(test, names, seen),
        Stmt::Create {
            bind: name,
            template,
            fields,
        } => run_create(*name, *template, fields, names, seen),
        Stmt::Exercise {
            bind: name,
            template,
            contract,
            choice,
            args,
        } => match seen.split_first() {
            Some((child, rest)) => run_value(*name, child, rest, names),
            None => next_exercise(*template, contract, *choice, args, names),
        },
        Stmt::Fetch {
            bind: name,
            template,
            contract,
        } => run_fetch(*name, *template, contract, checked, names, seen),
        Stmt::When { test, yes, no } => {
            if eval_test(test, names)? {
                return run_side(yes, checked, names, seen);
            }
            run_side(no, checked, names, seen)
        }
    }
}

/// One side of a `when`, whose names end with it.
#[cycle(run)]
fn run_side<'s>(
    stmts: &StmtList,
    checked: &Checked,
    names: &mut Bindings<'s>,
    seen: &'s [ChildResult],
) -> Result<Run<'s>, EvalFault>
    ensures { result ≢ Err EvalFault.Memory → shown result names.new ≡ closed names.old (ran_all (stmt_list_form stmts.now) checked.now names.old seen.now) }
{
    let kept = names.len();
    let run = run_list(stmts, checked, names, seen);
    names.truncate(kept);
    run
}

#[cycle(run)]
fn run_list<'s>(
    stmts: &StmtList,
    checked: &Checked,
    names: &mut Bindings<'s>,
    seen: &'s [ChildResult],
) -> Result<Run<'s>, EvalFault>
    ensures { result ≢ Err EvalFault.Memory → shown result names.new ≡ ran_all (stmt_list_form stmts.now) checked.now names.old seen.now }
{
    let mut rest = seen;
    for stmt in stmts.as_slice() {
        match run_stmt(stmt, checked, names, rest)? {
            Run::Stopped(step) => return Ok(Run::Stopped(step)),
            Run::Went(left) => rest = left,
        }
    }
    Ok(Run::Went(rest))
}

/// The names under which a template's expressions are evaluated: the contract's fields behind `this.`.
#[tactic(auto, using(crate::proofs::Given::fields_behind))]
pub(crate) fn field_names<'a>(
    alloc: Global,
    template: &'a Template,
    instance: &'a Instance,
) -> Bindings<'a>
    ensures { result ≡ with_this template.now.fields instance.now.fields [] }
{
    Bindings::of(
        alloc,
        GivenNames::of(
            None,
            BoundFields::of(
                Owner::This,
                template.fields.as_slice(),
                instance.fields.as_slice(),
            ),
            BoundFields::none(),
        ),
    )
}

#[tactic(auto, using(crate::proofs::Given::fields_behind))]
fn body_names<'a>(
    alloc: Global,
    template: &'a Template,
    choice: &'a Choice,
    call: &'a ChoiceCall,
) -> Bindings<'a>
    ensures { result ≡ names_of template.now choice.now call.now }
{
    Bindings::of(
        alloc,
        GivenNames::of(
            Some(Value::Contract(call.id)),
            BoundFields::of(
                Owner::This,
                template.fields.as_slice(),
                call.instance.fields.as_slice(),
            ),
            BoundFields::of(
                Owner::Arguments,
                choice.params.as_slice(),
                call.args.as_slice(),
            ),
        ),
    )
}

/// What the body of a choice does next under the names that it begins with.
fn next_under<'s>(
    checked: &Checked,
    choice: &Choice,
    names: &mut Bindings<'s>,
    so_far: &'s [ChildResult],
) -> Result<Step, EvalFault>
    ensures { UnlessMemory EvalFault.Memory result (ended choice.now (ran_all choice.now.body checked.now names.old so_far.now)) }
{
    match run_list(&choice.body, checked, names, so_far)? {
        Run::Stopped(step) => Ok(step),
        Run::Went(_) => Ok(Step::Done(eval_expr(&choice.result, names)?)),
    }
}

/// What the body of `choice`, which is a choice of `template`, does next in the call after `so_far`, the results of its children in order: a Create, an
/// Exercise or a Fetch, or Done with the choice's result. An Err is the first fault of an evaluation, or want of memory. It is for who has looked both
/// up.
pub fn next_of_choice(
    alloc: Global,
    checked: &Checked,
    template: &Template,
    choice: &Choice,
    call: &ChoiceCall,
    so_far: &[ChildResult],
) -> Result<Step, EvalFault>
    ensures { UnlessMemory EvalFault.Memory result (next_of template.now choice.now checked.now call.now so_far.now) }
{
    let mut names = body_names(alloc, template, choice, call);
    next_under(checked, choice, &mut names, so_far)
}

/// What the body of the call's choice does next after `so_far`, the results of its children in order: a Create, an Exercise or a Fetch, or Done with
/// the choice's result. An Err is the first fault of an evaluation, Assert where the choice isn't there, or want of memory. The sizes of arguments and
/// of the result are left to the caller.
#[tactic(auto, unfolding(crate::specs::Next::next))]
pub fn next_step(
    alloc: Global,
    checked: &Checked,
    call: &ChoiceCall,
    so_far: &ChildResultList,
) -> Result<Step, EvalFault>
    ensures { UnlessMemory EvalFault.Memory result (next checked.now call.now so_far.now) }
{
    match checked.template(call.instance.template) {
        Some(template) => match choice_of(template, call.choice) {
            Some(choice) => {
                next_of_choice(alloc, checked, template, choice, call, so_far.as_slice())
            }
            None => Err(EvalFault::Assert),
        },
        None => Err(EvalFault::Assert),
    }
}

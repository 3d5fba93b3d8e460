//! Statements without statements inside. A party for which nobody of the topology confirms is Unknown. `alloc` gives the memory for what is read; where
//! memory is wanting, also for the place in a fault, the fault is Memory.
ghost use Rattle.std.specs.Prelude.{◌≡◌};
ghost use Rattle.serde_json.specs.View.{view};
ghost use Rattle.ledger_terms.specs.StmtForms.{stmt_form};
ghost use Rattle.ledger_terms.specs.Answers.{FollowsAs};
ghost use Rattle.lang_read.specs.Stmts.{bind_of, assert_of, create_of, has_exercise_members, exercise_of, fetch_of, simple_of};

use crate::expr::read_expr;
use crate::expr_members::{expr_in, exprs_in};
use json_walk::{
    Place, WalkFault, fits, member, name_in, read_items, read_name, read_two, shape, template_in,
};
use ledger_terms::{Stmt, Topology};
use serde_json::Value;
use std::alloc::Global;
use std::boxed::Box;

#[tactic(auto, unfolding(crate::specs::Stmts::bind_of))]
fn read_bind(
    alloc: Global,
    value: &Value,
    at: &Place,
    topology: &Topology,
) -> Result<Stmt, WalkFault>
    ensures { FollowsAs WalkFault.Memory stmt_form result (bind_of topology.now.hosts at.now (view value.now)) }
{
    let items = read_items(value, at)?;
    let (name, value) = read_two(items, at)?;
    let name = read_name(name, &at.item(0))?;
    let value = read_expr(alloc, value, &at.item(1), 1, topology)?;
    Ok(Stmt::Bind { name, value })
}

#[tactic(auto, unfolding(crate::specs::Stmts::assert_of))]
fn read_assert(
    alloc: Global,
    value: &Value,
    at: &Place,
    topology: &Topology,
) -> Result<Stmt, WalkFault>
    ensures { FollowsAs WalkFault.Memory stmt_form result (assert_of topology.now.hosts at.now (view value.now)) }
{
    let test = read_expr(alloc, value, at, 1, topology)?;
    Ok(Stmt::Assert(test))
}

#[tactic(auto, unfolding(crate::specs::Stmts::create_of))]
fn read_create(
    alloc: Global,
    value: &Value,
    at: &Place,
    topology: &Topology,
) -> Result<Stmt, WalkFault>
    ensures { FollowsAs WalkFault.Memory stmt_form result (create_of topology.now.hosts at.now (view value.now)) }
{
    if !fits(value, &["bind", "template", "fields"], &[]) {
        return shape(at);
    }
    let bind = name_in(value, at, "bind")?;
    let template = template_in(value, at)?;
    let fields = exprs_in(alloc, value, at, "fields", topology)?;
    Ok(Stmt::Create {
        bind,
        template,
        fields,
    })
}

#[tactic(auto, unfolding(crate::specs::Stmts::has_exercise_members))]
fn has_exercise_members(value: &Value) -> bool
    ensures { result ≡ has_exercise_members (view value.now) }
{
    fits(
        value,
        &["bind", "template", "contract", "choice", "args"],
        &[],
    )
}

#[tactic(auto, unfolding(crate::specs::Stmts::exercise_of))]
fn read_exercise(
    alloc: Global,
    value: &Value,
    at: &Place,
    topology: &Topology,
) -> Result<Stmt, WalkFault>
    ensures { FollowsAs WalkFault.Memory stmt_form result (exercise_of topology.now.hosts at.now (view value.now)) }
{
    if !has_exercise_members(value) {
        return shape(at);
    }
    let bind = name_in(value, at, "bind")?;
    let template = template_in(value, at)?;
    let contract = expr_in(alloc, value, at, "contract", topology)?;
    let choice = name_in(value, at, "choice")?;
    let args = exprs_in(alloc, value, at, "args", topology)?;
    Ok(Stmt::Exercise {
        bind,
        template,
        contract: Box::into_inner(contract),
        choice,
        args,
    })
}

#[tactic(auto, unfolding(crate::specs::Stmts::fetch_of))]
fn read_fetch(
    alloc: Global,
    value: &Value,
    at: &Place,
    topology: &Topology,
) -> Result<Stmt, WalkFault>
    ensures { FollowsAs WalkFault.Memory stmt_form result (fetch_of topology.now.hosts at.now (view value.now)) }
{
    if !fits(value, &["bind", "template", "contract"], &[]) {
        return shape(at);
    }
    let bind = name_in(value, at, "bind")?;
    let template = template_in(value, at)?;
    let contract = expr_in(alloc, value, at, "contract", topology)?;
    Ok(Stmt::Fetch {
        bind,
        template,
        contract: Box::into_inner(contract),
    })
}

/// The statement, other than a `when`, that the value at the place `at` spells, an object with one member, `let`, `assert`, `create`, `exercise` or
/// `fetch`; or the first fault, Shape where it is none of these. Parties have to be those of the topology.
#[tactic(auto, unfolding(crate::specs::Stmts::simple_of))]
pub fn read_simple(
    alloc: Global,
    value: &Value,
    at: &Place,
    topology: &Topology,
) -> Result<Stmt, WalkFault>
    ensures { FollowsAs WalkFault.Memory stmt_form result (simple_of topology.now.hosts at.now (view value.now)) }
{
    if fits(value, &["let"], &[]) {
        let found = member(value, at, "let")?;
        return read_bind(alloc, found, &at.member("let"), topology);
    }
    if fits(value, &["assert"], &[]) {
        let found = member(value, at, "assert")?;
        return read_assert(alloc, found, &at.member("assert"), topology);
    }
    if fits(value, &["create"], &[]) {
        let found = member(value, at, "create")?;
        return read_create(alloc, found, &at.member("create"), topology);
    }
    if fits(value, &["exercise"], &[]) {
        let found = member(value, at, "exercise")?;
        return read_exercise(alloc, found, &at.member("exercise"), topology);
    }
    if fits(value, &["fetch"], &[]) {
        let found = member(value, at, "fetch")?;
        return read_fetch(alloc, found, &at.member("fetch"), topology);
    }
    shape(at)
}

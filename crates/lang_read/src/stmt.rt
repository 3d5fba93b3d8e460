//! Statements of a choice's body. A party for which nobody of the topology confirms is Unknown. `alloc` gives the memory for what is read; where memory
//! is wanting, also for the place in a fault, the fault is Memory.
ghost use Rattle.std.specs.Prelude.{◌≡◌, ◌≤◌, IfOk};
ghost use Rattle.serde_json.specs.View.{view, items_view};
ghost use Rattle.serde_json.specs.Find.{get};
ghost use Rattle.ledger_terms.specs.Syntax.{NoStmts};
ghost use Rattle.ledger_terms.specs.StmtForms.{stmt_form, stmt_list_form};
ghost use Rattle.ledger_terms.specs.Answers.{FollowsAs};
ghost use Rattle.lang_read.specs.Stmts.{has_when_members, stmt_of, when_of, else_of, block_of, stmts_from, body_in};

use crate::expr_members::expr_in;
use crate::simple_stmt::read_simple;
use json_walk::{Place, STATEMENTS, WalkFault, check_limit, fits, member, shape};
use ledger_terms::{Stmt, StmtList, Topology};
use serde_json::Value;
use std::alloc::Global;
use std::boxed::Box;

#[tactic(auto, unfolding(crate::specs::Stmts::has_when_members))]
fn has_when_members(value: &Value) -> bool
    ensures { result ≡ has_when_members (view value.now) }
{
    fits(value, &["if", "then"], &["else"])
}

/// A statement, and the number of statements after it. `before` is the number of those that were counted before: all items of
/// each list that was begun, this statement among them, since a list is counted before its items are read.
#[cycle(stmt)]
fn read_stmt(
    alloc: Global,
    value: &Value,
    at: &Place,
    before: u64,
    topology: &Topology,
) -> Result<(Stmt, u64), WalkFault>
    requires { before ≤ STATEMENTS.most }
    ensures first { FollowsAs WalkFault.Memory (λ s. (stmt_form s.0, s.1)) result (stmt_of topology.now.hosts at.now before (view value.now)) }
    ensures within { IfOk result (λ s. s.1 ≤ STATEMENTS.most) }
{
    if !fits(value, &["when"], &[]) {
        let stmt = read_simple(alloc, value, at, topology)?;
        return Ok((stmt, before));
    }
    let found = member(value, at, "when")?;
    read_when(alloc, found, &at.member("when"), before, topology)
}

#[cycle(stmt)]
fn read_when(
    alloc: Global,
    value: &Value,
    at: &Place,
    before: u64,
    topology: &Topology,
) -> Result<(Stmt, u64), WalkFault>
    requires { before ≤ STATEMENTS.most }
    ensures first { FollowsAs WalkFault.Memory (λ s. (stmt_form s.0, s.1)) result (when_of topology.now.hosts at.now before (view value.now)) }
    ensures within { IfOk result (λ s. s.1 ≤ STATEMENTS.most) }
{
    if !has_when_members(value) {
        return shape(at);
    }
    let test = expr_in(alloc, value, at, "if", topology)?;
    let found = member(value, at, "then")?;
    let (yes, count) = read_block(alloc, found, &at.member("then"), before, topology)?;
    let (no, count) = read_else(alloc, value, at, count, topology)?;
    let test = Box::into_inner(test);
    Ok((Stmt::When { test, yes, no }, count))
}

#[cycle(stmt)]
fn read_else(
    alloc: Global,
    value: &Value,
    at: &Place,
    before: u64,
    topology: &Topology,
) -> Result<(StmtList, u64), WalkFault>
    requires { before ≤ STATEMENTS.most }
    ensures first { FollowsAs WalkFault.Memory (λ s. (stmt_list_form s.0, s.1)) result (else_of topology.now.hosts at.now before (view value.now)) }
    ensures within { IfOk result (λ s. s.1 ≤ STATEMENTS.most) }
{
    match value.get("else") {
        Some(found) => read_block(alloc, found, &at.member("else"), before, topology),
        None => Ok((StmtList::new(alloc), before)),
    }
}

#[cycle(stmt)]
fn read_block(
    alloc: Global,
    value: &Value,
    at: &Place,
    before: u64,
    topology: &Topology,
) -> Result<(StmtList, u64), WalkFault>
    requires { before ≤ STATEMENTS.most }
    ensures first { FollowsAs WalkFault.Memory (λ s. (stmt_list_form s.0, s.1)) result (block_of topology.now.hosts at.now before (view value.now)) }
    ensures within { IfOk result (λ s. s.1 ≤ STATEMENTS.most) }
{
    match value {
        Value::Array(items) => {
            let count = before + items.len() as u64;
            check_limit(at, STATEMENTS, count)?;
            read_stmts(alloc, items, at, count, topology)
        }
        _ => shape(at),
    }
}

#[cycle(stmt)]
#[tactic(auto, using(ledger_terms::proofs::StmtLists::list_forms))]
fn read_stmts(
    alloc: Global,
    items: &Vec<Value>,
    at: &Place,
    before: u64,
    topology: &Topology,
) -> Result<(StmtList, u64), WalkFault>
    requires { before ≤ STATEMENTS.most }
    ensures first { FollowsAs WalkFault.Memory (λ s. (stmt_list_form s.0, s.1)) result
        (stmts_from topology.now.hosts at.now 0 (NoStmts, before) (items_view items.now.items)) }
    ensures within { IfOk result (λ s. s.1 ≤ STATEMENTS.most) }
{
    let mut stmts = StmtList::new(alloc);
    let mut count = before;
    'stmts: for i in 0..items.len() {
        let here = at.item(i);
        let (stmt, after) = read_stmt(alloc, &items[i], &here, count, topology)?;
        stmts.push(stmt)?;
        count = after;
    }
    Ok((stmts, count))
}

/// The statements in the member `body` of the choice that is `value` at the place `at`, none where that member is absent, or the first fault, Limit
/// where they are more than 64 with those below a `when`. Parties have to be those of the topology.
#[tactic(auto, unfolding(crate::specs::Stmts::body_in))]
pub fn body_in(
    alloc: Global,
    value: &Value,
    at: &Place,
    topology: &Topology,
) -> Result<StmtList, WalkFault>
    ensures { FollowsAs WalkFault.Memory stmt_list_form result (body_in topology.now.hosts at.now (view value.now)) }
{
    match value.get("body") {
        Some(found) => {
            let (stmts, _) = read_block(alloc, found, &at.member("body"), 0, topology)?;
            Ok(stmts)
        }
        None => Ok(StmtList::new(alloc)),
    }
}

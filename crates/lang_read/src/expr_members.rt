//! Expressions as members of objects. `value` is the object, `at` its place, `name` the member's name; parties have to be those of the topology, and
//! another name is Unknown. `alloc` gives the memory for what is read; where memory is wanting, also for the place in a fault, the fault is Memory.
ghost use Rattle.std.specs.Prelude.{◌≡◌};
ghost use Rattle.serde_json.specs.View.{view, items_view};
ghost use Rattle.serde_json.specs.Find.{get};
ghost use Rattle.ledger_terms.specs.Syntax.{NoExprs};
ghost use Rattle.ledger_terms.specs.ExprForms.{expr_form, list_form};
ghost use Rattle.ledger_terms.specs.Answers.{FollowsAs, FollowsOn};
ghost use Rattle.json_walk.specs.Walk.{walk_items};
ghost use Rattle.lang_read.specs.Exprs.{expr_in, expr_or, expr_step, exprs_in};

use crate::expr::{read_boxed, read_expr};
use json_walk::{Place, WalkFault, member, read_items};
use ledger_terms::{Expr, ExprList, Topology};
use serde_json::Value;
use std::alloc::Global;
use std::boxed::Box;

/// The whole expression in the member `name` of an object, or the first fault: Shape at the object where that member is absent.
#[tactic(auto, unfolding(crate::specs::Exprs::expr_in))]
pub fn expr_in(
    alloc: Global,
    value: &Value,
    at: &Place,
    name: &str,
    topology: &Topology,
) -> Result<Box<Expr>, WalkFault>
    ensures { FollowsAs WalkFault.Memory (λ e. expr_form e.value) result (expr_in topology.now.hosts at.now name.now (view value.now)) }
{
    let found = member(value, at, name)?;
    read_boxed(alloc, found, &at.member(name), 1, topology)
}

/// The whole expression in the member `name` of an object, or its first fault; `default` where there is no such member.
#[tactic(auto, unfolding(crate::specs::Exprs::expr_or))]
pub fn expr_or(
    alloc: Global,
    value: &Value,
    at: &Place,
    name: &str,
    default: Expr,
    topology: &Topology,
) -> Result<Box<Expr>, WalkFault>
    ensures { FollowsAs WalkFault.Memory (λ e. expr_form e.value) result
        (expr_or topology.now.hosts at.now name.now (expr_form default) (view value.now)) }
{
    match value.get(name) {
        Some(found) => read_boxed(alloc, found, &at.member(name), 1, topology),
        None => Ok(Box::new(alloc, default)?),
    }
}

#[tactic(auto, using(ledger_terms::proofs::ExprLists::list_forms), unfolding(crate::specs::Exprs::expr_step))]
fn push_expr(
    alloc: Global,
    value: &Value,
    at: &Place,
    index: usize,
    topology: &Topology,
    exprs: &mut ExprList,
) -> Result<(), WalkFault>
    ensures { FollowsOn WalkFault.Memory (list_form exprs.new) result
        (expr_step topology.now.hosts at.now index (list_form exprs.old) (view value.now)) }
{
    let here = at.item(index);
    let expr = read_expr(alloc, value, &here, 1, topology)?;
    exprs.push(expr)?;
    Ok(())
}

fn read_exprs(
    alloc: Global,
    items: &[Value],
    at: &Place,
    topology: &Topology,
) -> Result<ExprList, WalkFault>
    ensures { FollowsAs WalkFault.Memory list_form result (walk_items (expr_step topology.now.hosts at.now) 0 NoExprs (items_view items.now)) }
{
    let mut exprs = ExprList::new(alloc);
    'items: for (i, item) in items.iter().enumerate() {
        push_expr(alloc, item, at, i, topology, &mut exprs)?;
    }
    Ok(exprs)
}

/// The whole expressions in the list that is the member `name` of an object, in order, a list of any length. The first fault is Shape where the
/// member is absent or no list, else that of an expression.
#[tactic(auto, unfolding(crate::specs::Exprs::exprs_in))]
pub fn exprs_in(
    alloc: Global,
    value: &Value,
    at: &Place,
    name: &str,
    topology: &Topology,
) -> Result<ExprList, WalkFault>
    ensures { FollowsAs WalkFault.Memory list_form result (exprs_in topology.now.hosts at.now name.now (view value.now)) }
{
    let found = member(value, at, name)?;
    let here = at.member(name);
    let items = read_items(found, &here)?;
    read_exprs(alloc, items, &here, topology)
}

//! Prepared trees. `topology` has the participants and the parties that a text may name; another name is Unknown. `alloc` gives the memory for what is
//! read; where memory is wanting, also for the place in a fault, the fault is Memory.
ghost use Rattle.std.specs.Prelude.{◌≡◌, ◌≤◌, ◌+◌, IfOk, OnOk, nat_le};
ghost use Rattle.serde_json.specs.View.{view, items_view};
ghost use Rattle.ledger_terms.specs.Answers.{Follows, FollowsAs, check};
ghost use Rattle.ledger_terms.specs.Forest.{NoRoots};
ghost use Rattle.ledger_terms.specs.Grown.{tree_of as draft_tree};
ghost use Rattle.script_read.specs.Drafts.{is_draft, within_tree, draft_of, node_of, tree_of, drafts_from};

use crate::command::{is_create, is_exercise};
use crate::draft::{is_fetch, read_exercise, read_leaf};
use json_walk::{DRAFT_DEPTH, DRAFTS, Place, WalkFault, check_limit, member, shape};
use ledger_terms::{Draft, DraftList, Topology, Tree};
use serde_json::Value;
use std::alloc::Global;

#[tactic(auto, unfolding(crate::specs::Drafts::is_draft))]
fn is_draft(value: &Value) -> bool
    ensures { result ≡ is_draft (view value.now) }
{
    is_create(value) || is_exercise(value) || is_fetch(value)
}

/// A draft at a depth, and the number of drafts after it. `before` is the number of those that were counted before: all items
/// of each list that was begun, this draft among them, since a list is counted before its items are read.
#[cycle(tree)]
fn read_draft(
    alloc: Global,
    value: &Value,
    at: &Place,
    depth: u64,
    before: u64,
    topology: &Topology,
) -> Result<(Draft, u64), WalkFault>
    requires depth { depth ≤ DRAFT_DEPTH.most + 1 }
    requires few { before ≤ DRAFTS.most }
    ensures first { FollowsAs WalkFault.Memory (λ s. (draft_tree s.0, s.1)) result (draft_of topology.now.hosts at.now depth before (view value.now)) }
    ensures within { IfOk result (λ s. s.1 ≤ DRAFTS.most) }
{
    if !is_draft(value) {
        return shape(at);
    }
    check_limit(at, DRAFT_DEPTH, depth)?;
    if !is_exercise(value) {
        let leaf = read_leaf(alloc, value, at, topology)?;
        return Ok((leaf, before));
    }
    let found = member(value, at, "exercise")?;
    read_node(
        alloc,
        found,
        &at.member("exercise"),
        depth,
        before,
        topology,
    )
}

#[cycle(tree)]
fn read_node(
    alloc: Global,
    value: &Value,
    at: &Place,
    depth: u64,
    before: u64,
    topology: &Topology,
) -> Result<(Draft, u64), WalkFault>
    requires depth { depth ≤ DRAFT_DEPTH.most }
    requires few { before ≤ DRAFTS.most }
    ensures first { FollowsAs WalkFault.Memory (λ s. (draft_tree s.0, s.1)) result (node_of topology.now.hosts at.now depth before (view value.now)) }
    ensures within { IfOk result (λ s. s.1 ≤ DRAFTS.most) }
{
    let root = read_exercise(alloc, value, at, topology)?;
    let found = member(value, at, "children")?;
    let here = at.member("children");
    let (below, count) = read_tree(alloc, found, &here, depth + 1, before, topology)?;
    Ok((Tree { root, below }, count))
}

/// The drafts of the list at the place `at`, all at `depth`, 1 for roots, with all below them, and `before` with the number of all these added; or the
/// first fault. `before` is the number of drafts that were counted before the list: all items of each list that was begun.
#[cycle(tree)]
pub fn read_tree(
    alloc: Global,
    value: &Value,
    at: &Place,
    depth: u64,
    before: u64,
    topology: &Topology,
) -> Result<(DraftList, u64), WalkFault>
    requires depth { depth ≤ DRAFT_DEPTH.most + 1 }
    requires few { before ≤ DRAFTS.most }
    ensures first { Follows WalkFault.Memory result (tree_of topology.now.hosts at.now depth before (view value.now)) }
    ensures within { IfOk result (λ s. s.1 ≤ DRAFTS.most) }
{
    match value {
        Value::Array(items) => {
            let count = before + items.len() as u64;
            check_limit(at, DRAFTS, count)?;
            read_drafts(alloc, items, at, depth, count, topology)
        }
        _ => shape(at),
    }
}

#[cycle(tree)]
fn read_drafts(
    alloc: Global,
    items: &Vec<Value>,
    at: &Place,
    depth: u64,
    before: u64,
    topology: &Topology,
) -> Result<(DraftList, u64), WalkFault>
    requires depth { depth ≤ DRAFT_DEPTH.most + 1 }
    requires few { before ≤ DRAFTS.most }
    ensures first { Follows WalkFault.Memory result (drafts_from topology.now.hosts at.now depth 0 (NoRoots, before) (items_view items.now.items)) }
    ensures within { IfOk result (λ s. s.1 ≤ DRAFTS.most) }
{
    let mut drafts = DraftList::new(alloc);
    let mut count = before;
    'drafts: for i in 0..items.len() {
        let here = at.item(i);
        let (draft, after) = read_draft(alloc, &items[i], &here, depth, count, topology)?;
        drafts.push(draft)?;
        count = after;
    }
    Ok((drafts, count))
}

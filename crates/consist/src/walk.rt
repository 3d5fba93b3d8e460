//! The walk through trees of actions in pre-order, to the first that fails a rule.
ghost use Rattle.std.specs.Prelude.{◌≡◌, ◌++◌, ◌∷◌, false, IfOk};
ghost use Rattle.ledger_terms.specs.Forest.{preorder};
ghost use Rattle.consist.specs.Rules.{fails};
ghost use Rattle.consist.specs.Walked.{placed_from, IsWalked};

use crate::earlier::Earlier;
use crate::rule::{Rule, fails};
use ledger_terms::{ActionNode, ActionNodeList};
use std::alloc::AllocError;

/// Walks through a tree whose root stands at the path. True where it stopped at the action that fails, to which the path
/// then leads; else all of it is put behind what was met earlier, and the path is as before.
#[cycle(walk)]
fn walk_tree<'a>(
    rule: Rule,
    node: &'a ActionNode,
    earlier: &mut Vec<Earlier<'a>>,
    path: &mut Vec<u16>,
) -> Result<bool, AllocError>
    ensures { IfOk result (λ stopped. IsWalked (fails rule) earlier.old.items path.old.items
        ((path.old.items, node.now.root) ∷ placed_from path.old.items 0 node.now.below) stopped earlier.new.items path.new.items) }
{
    if fails(rule, earlier.as_slice(), &node.root) {
        return Ok(true);
    }
    earlier.push(Earlier::of(&node.root))?;
    walk_trees(rule, &node.below, earlier, path)
}

/// The same of trees whose roots stand below the path.
#[cycle(walk)]
pub(crate) fn walk_trees<'a>(
    rule: Rule,
    roots: &'a ActionNodeList,
    earlier: &mut Vec<Earlier<'a>>,
    path: &mut Vec<u16>,
) -> Result<bool, AllocError>
    ensures { IfOk result (λ stopped. IsWalked (fails rule) earlier.old.items path.old.items
        (placed_from path.old.items 0 roots.now) stopped earlier.new.items path.new.items) }
{
    let nodes = roots.as_slice();
    for at in 0..nodes.len() {
        // A path keeps 16 bits of each step.
        let step = (at % 65536) as u16;
        path.push(step)?;
        let stopped = walk_tree(rule, &nodes[at], earlier, path)?;
        if stopped {
            return Ok(true);
        }
        path.pop();
    }
    Ok(false)
}

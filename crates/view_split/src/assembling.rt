//! Putting views back.
ghost use Rattle.std.specs.Prelude.{◌≡◌, IfOk, OnOk};
ghost use Rattle.ledger_terms.specs.Forest.{join};
ghost use Rattle.ledger_terms.specs.Grown.{tree_of};
ghost use Rattle.view_split.specs.Holed.{Hole, NoMore, fill, after_holes};
ghost use Rattle.view_split.specs.Split.{assembled};

use crate::core_node::{CoreChild, CoreChildList};
use crate::split_view::{View, ViewList};
use crate::trees::Trees;
use ledger_terms::{Act, ActionNode, ActionNodeList, Exact, Tree};
use std::alloc::{AllocError, Global};

// Puts a core's children at the end, with a tree in the place of each hole.
fn fill_into(
    alloc: Global,
    core: &CoreChildList,
    trees: &mut Trees,
    out: &mut ActionNodeList,
) -> Result<(), AllocError>
    ensures filled { OnOk result (out.new ≡ join out.old (fill core.now trees.old)) }
    ensures left { OnOk result (trees.new ≡ after_holes core.now trees.old) }
{
    for child in core.as_slice() {
        match child {
            CoreChild::Inner(node) => {
                let mut children = ActionNodeList::new(alloc);
                fill_into(alloc, &node.children, trees, &mut children)?;
                let seed = node.seed;
                let action = node.action.copied()?;
                let root = Act { seed, action };
                out.push(Tree {
                    root,
                    below: children,
                })?;
            }
            CoreChild::Hole => put_next(trees, out)?,
        }
    }
    Ok(())
}

/// Puts the next of the trees at the end of `out`, which fills a hole; where none is left it does nothing. Err is want of memory, and nothing is said
/// of `trees` and `out` then.
pub fn put_next(trees: &mut Trees, out: &mut ActionNodeList) -> Result<(), AllocError>
    ensures filled { OnOk result (out.new ≡ join out.old (fill (Hole NoMore) trees.old)) }
    ensures left { OnOk result (trees.new ≡ after_holes (Hole NoMore) trees.old) }
{
    if let Some(tree) = trees.pop() {
        out.push(tree)?;
    }
    Ok(())
}

#[cycle(assemble)]
fn assemble_into(
    alloc: Global,
    views: &ViewList,
    out: &mut ActionNodeList,
) -> Result<(), AllocError>
    ensures { OnOk result (out.new ≡ join out.old (assembled views.now)) }
{
    for view in views.as_slice() {
        out.push(assemble(alloc, view)?)?;
    }
    Ok(())
}

/// A view with all views below it, as the tree of its first action: each hole of a core, in pre-order, is filled by the next view below. It copies the
/// actions; Err is want of memory. Of a view that has more holes than subviews the last holes stay empty, and of one that has fewer the last subviews
/// are dropped; a view that is split off a transaction has as many.
#[cycle(assemble)]
pub fn assemble(alloc: Global, view: &View) -> Result<ActionNode, AllocError>
    ensures { IfOk result (λ n. tree_of n ≡ assembled (tree_of view.now)) }
{
    let mut below = ActionNodeList::new(alloc);
    assemble_into(alloc, &view.below, &mut below)?;
    let mut trees = Trees::of(below);
    let mut children = ActionNodeList::new(alloc);
    fill_into(alloc, &view.root.below, &mut trees, &mut children)?;
    let root = view.root.first.copied()?;
    Ok(Tree {
        root,
        below: children,
    })
}

//! Putting views back with no copy of their actions.
ghost use Rattle.std.specs.Prelude.{◌≡◌, IfOk, OnOk};
ghost use Rattle.ledger_terms.specs.Forest.{join};
ghost use Rattle.ledger_terms.specs.Grown.{tree_of};
ghost use Rattle.view_split.specs.Holed.{fill, after_holes};
ghost use Rattle.view_split.specs.Split.{assembled};

use crate::assembling::put_next;
use crate::core_node::{CoreChild, CoreChildList};
use crate::split_view::{SplitView, View, ViewList};
use crate::trees::Trees;
use ledger_terms::{Act, ActionNode, ActionNodeList, Tree};
use std::alloc::{AllocError, Global};

// Puts a core's children at the end, with a tree in the place of each hole.
fn move_core(
    alloc: Global,
    core: CoreChildList,
    trees: &mut Trees,
    out: &mut ActionNodeList,
) -> Result<(), AllocError>
    ensures filled { OnOk result (out.new ≡ join out.old (fill core trees.old)) }
    ensures left { OnOk result (trees.new ≡ after_holes core trees.old) }
{
    'children: for child in core.into_vec() {
        match child {
            CoreChild::Inner(node) => {
                let mut below = ActionNodeList::new(alloc);
                move_core(alloc, node.children, trees, &mut below)?;
                let root = Act {
                    seed: node.seed,
                    action: node.action,
                };
                out.push(Tree { root, below })?;
            }
            CoreChild::Hole => put_next(trees, out)?,
        }
    }
    Ok(())
}

#[cycle(into_assembled)]
fn move_views(alloc: Global, views: ViewList, out: &mut ActionNodeList) -> Result<(), AllocError>
    ensures { OnOk result (out.new ≡ join out.old (assembled views)) }
{
    'views: for view in views.into_vec() {
        out.push(into_assembled(alloc, view)?)?;
    }
    Ok(())
}

/// A view with all views below it, as the tree of its first action, as `assemble` makes it: each hole is filled by the next view below. It moves the
/// view's own seeds and actions and copies nothing. Err is want of memory.
#[cycle(into_assembled)]
pub fn into_assembled(alloc: Global, view: View) -> Result<ActionNode, AllocError>
    ensures { IfOk result (λ n. tree_of n ≡ assembled (tree_of view)) }
{
    let Tree { root, below } = view;
    let SplitView {
        first,
        below: core,
        ..
    } = root;
    let mut subtrees = ActionNodeList::new(alloc);
    move_views(alloc, below, &mut subtrees)?;
    let mut trees = Trees::of(subtrees);
    let mut children = ActionNodeList::new(alloc);
    move_core(alloc, core, &mut trees, &mut children)?;
    Ok(Tree {
        root: first,
        below: children,
    })
}

//! The actions of views in pre-order, with no copy of them.
ghost use Rattle.std.specs.Prelude.{◌≡◌, ◌++◌, IfOk, OnOk};
ghost use Rattle.ledger_terms.specs.Grown.{tree_of};
ghost use Rattle.ledger_model.specs.Forest.{acts};
ghost use Rattle.view_split.specs.Holed.{Hole, NoMore, fill, after_holes};
ghost use Rattle.view_split.specs.Listed.{put_back_from};
ghost use Rattle.view_split.specs.Placed.{placed_forest};
ghost use Rattle.view_split.specs.SeenViews.{put_back};
ghost use Rattle.view_split.specs.Split.{assembled};

use crate::act_ref::ActRef;
use crate::core_node::{CoreChild, CoreChildList};
use crate::placed_view::PlacedViewList;
use crate::split_view::View;
use std::alloc::{AllocError, Global};

// Those of a core's children, where each hole takes the next view from number `next` on.
#[cycle(list_acts)]
fn list_core<'a>(
    core: &'a CoreChildList,
    views: &'a [View],
    next: &mut usize,
    found: &mut Vec<ActRef<'a>>,
) -> Result<(), AllocError>
    ensures found { OnOk result (found.new.items ≡ found.old.items ++ acts (fill core.now (put_back_from next.old views.now))) }
    ensures left { OnOk result (put_back_from next.new views.now ≡ after_holes core.now (put_back_from next.old views.now)) }
{
    for child in core.as_slice() {
        match child {
            CoreChild::Inner(node) => {
                found.push(ActRef::new(&node.seed, &node.action))?;
                list_core(&node.children, views, next, found)?;
            }
            CoreChild::Hole => list_next(views, next, found)?,
        }
    }
    Ok(())
}

// Those of the next view, where one is left.
#[cycle(list_acts)]
fn list_next<'a>(
    views: &'a [View],
    next: &mut usize,
    found: &mut Vec<ActRef<'a>>,
) -> Result<(), AllocError>
    ensures found { OnOk result (found.new.items ≡ found.old.items ++ acts (fill (Hole NoMore) (put_back_from next.old views.now))) }
    ensures left { OnOk result (put_back_from next.new views.now ≡ after_holes (Hole NoMore) (put_back_from next.old views.now)) }
{
    if *next < views.len() {
        acts_in_view(&views[*next], found)?;
        *next += 1;
    }
    Ok(())
}

/// Puts the actions of a view and of all views below it at the end of `found`, in pre-order of the tree that the view is put back to. Err is want of
/// memory, and nothing is said of `found` then.
#[cycle(list_acts)]
pub fn acts_in_view<'a>(view: &'a View, found: &mut Vec<ActRef<'a>>) -> Result<(), AllocError>
    ensures { OnOk result (found.new.items ≡ found.old.items ++ acts (assembled (tree_of view.now))) }
{
    found.push(ActRef::of(&view.root.first))?;
    let mut next = 0;
    list_core(&view.root.below, view.below.as_slice(), &mut next, found)
}

/// The actions of opened views and of all views below these, in pre-order of the trees that they are put back to. Err is want of memory.
pub fn acts_in_views<'a>(
    alloc: Global,
    views: &'a PlacedViewList,
) -> Result<Vec<ActRef<'a>>, AllocError>
    ensures { IfOk result (λ found. found.items ≡ acts (put_back (placed_forest views.now))) }
{
    let mut found = Vec::new(alloc);
    for placed in views.as_slice() {
        acts_in_view(&placed.view, &mut found)?;
    }
    Ok(found)
}

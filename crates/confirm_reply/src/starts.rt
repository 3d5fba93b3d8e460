//! The first actions of the views directly below one.
ghost use Rattle.std.specs.Prelude.{◌≡◌, ◌++◌, IfOk, OnOk, option_copied, suc};
ghost use Rattle.ledger_terms.specs.Forest.{number_from};
ghost use Rattle.canton_model.specs.Checks.{is_directly_below};
ghost use Rattle.view_split.specs.Numbered.{held_in};
ghost use Rattle.confirm_reply.specs.Located.{after_path, number_if, starts_among, starts_in};
ghost use Rattle.confirm_reply.specs.Numbers.{numbered_trees};

use crate::cores::{Laid, after_path, after_step, is_reached, lay_core};
use crate::numbered::Numbered;
use ledger_terms::Path;
use std::alloc::{AllocError, Global};
use view_split::{PlacedViewList, View, ViewList};

fn is_directly_below(path: &[u16], other: &[u16]) -> bool
    ensures { result ≡ is_directly_below path.now other.now }
{
    other.len() == path.len() + 1 && &other[..path.len()] == path
}

fn push_if(starts: &mut Vec<usize>, counts: bool, tree: &Numbered<'_>) -> Result<(), AllocError>
    ensures { OnOk result (starts.new.items ≡ starts.old.items ++ number_if counts (tree.now.number, tree.now.node.now.root)) }
{
    if counts {
        starts.push(tree.number)?;
    }
    Ok(())
}

// Those below a view. Where nothing is left of the path there are none.
#[cycle(starts)]
fn starts_below(
    alloc: Global,
    view: &View,
    tree: &Numbered<'_>,
    left: Option<&[u16]>,
    starts: &mut Vec<usize>,
) -> Result<(), AllocError>
    ensures { OnOk result (starts.new.items ≡ starts.old.items
        ++ starts_among (option_copied left.entry) 0 view.now.below
        (held_in view.now.root.below (number_from (suc tree.now.number) tree.now.node.now.below))) }
{
    let Some(_) = left else {
        return Ok(());
    };
    let Laid { held, .. } = lay_core(alloc, view, tree)?;
    starts_among(alloc, &view.below, held.as_slice(), left, starts)
}

#[cycle(starts)]
fn starts_among(
    alloc: Global,
    views: &ViewList,
    trees: &[Numbered<'_>],
    left: Option<&[u16]>,
    starts: &mut Vec<usize>,
) -> Result<(), AllocError>
    ensures { OnOk result (starts.new.items ≡ starts.old.items ++ starts_among (option_copied left.entry) 0 views.now (numbered_trees trees.now)) }
{
    let items = views.as_slice();
    for at in 0..items.len() {
        if at >= trees.len() {
            return Ok(());
        }
        let tree = &trees[at];
        push_if(starts, is_reached(left), tree)?;
        starts_below(alloc, &items[at], tree, after_step(left, at), starts)?;
    }
    Ok(())
}

/// The numbers of the first actions of the views directly below a path, over the trees of all that is opened.
pub(crate) fn starts_in(
    alloc: Global,
    views: &PlacedViewList,
    trees: &[Numbered<'_>],
    path: &Path,
) -> Result<Vec<usize>, AllocError>
    ensures { IfOk result (λ starts. starts.items ≡ starts_in path.now views.now (numbered_trees trees.now)) }
{
    let mut starts = Vec::new(alloc);
    let items = views.as_slice();
    for at in 0..items.len() {
        if at >= trees.len() {
            return Ok(starts);
        }
        let placed = &items[at];
        let tree = &trees[at];
        let other = placed.path.as_slice();
        push_if(&mut starts, is_directly_below(path.as_slice(), other), tree)?;
        let left = after_path(path.as_slice(), other);
        starts_below(alloc, &placed.view, tree, left, &mut starts)?;
    }
    Ok(starts)
}

//! Views that are opened, with the numbers of their cores.
ghost use Rattle.std.specs.Prelude.{◌≡◌, ◌++◌, ◌∷◌, [], Some, suc, IfOk, OnOk, option_copied, option_map};
ghost use Rattle.ledger_terms.specs.Forest.{join, number_from};
ghost use Rattle.view_split.specs.CoreLists.{children_of};
ghost use Rattle.view_split.specs.Numbered.{core_in, held_in};
ghost use Rattle.confirm_reply.specs.Located.{after_path, after_step, found_as, is_reached, view_found, view_found_in, view_or};
ghost use Rattle.confirm_reply.specs.Numbers.{numbered_trees, numbers_of};

use crate::found_view::FoundView;
use crate::numbered::Numbered;
use crate::numbering::numbered_below;
use ledger_terms::Path;
use std::alloc::{AllocError, Global};
use view_split::{CoreChild, CoreChildList, PlacedViewList, View, ViewList};

// A core's children over the trees that they are put back to: their numbers, and the trees that fill its holes.
#[cycle(core)]
fn put_core<'a>(
    alloc: Global,
    children: &CoreChildList,
    trees: &[Numbered<'a>],
    core: &mut Vec<usize>,
    held: &mut Vec<Numbered<'a>>,
) -> Result<(), AllocError>
    ensures core { OnOk result (core.new.items ≡ core.old.items ++ numbers_of (core_in children.now (numbered_trees trees.now))) }
    ensures held { OnOk result (numbered_trees held.new.items ≡ join (numbered_trees held.old.items) (held_in children.now (numbered_trees trees.now))) }
{
    let items = children.as_slice();
    for at in 0..items.len() {
        if at >= trees.len() {
            return Ok(());
        }
        put_child(alloc, &items[at], &trees[at], core, held)?;
    }
    Ok(())
}

#[cycle(core)]
fn put_child<'a>(
    alloc: Global,
    child: &CoreChild,
    tree: &Numbered<'a>,
    core: &mut Vec<usize>,
    held: &mut Vec<Numbered<'a>>,
) -> Result<(), AllocError>
    ensures core { OnOk result (core.new.items
        ≡ core.old.items ++ numbers_of (core_in (children_of (child.now ∷ [])) (numbered_trees (tree.now ∷ [])))) }
    ensures held { OnOk result (numbered_trees held.new.items
        ≡ join (numbered_trees held.old.items) (held_in (children_of (child.now ∷ [])) (numbered_trees (tree.now ∷ [])))) }
{
    match child {
        CoreChild::Inner(node) => {
            core.push(tree.number)?;
            let below = numbered_below(alloc, tree)?;
            put_core(alloc, &node.children, below.as_slice(), core, held)
        }
        CoreChild::Hole => {
            held.push(*tree)?;
            Ok(())
        }
    }
}

/// What is left of a wanted path after one step down. None where it doesn't lead this way.
pub(crate) fn after_step(left: Option<&[u16]>, step: usize) -> Option<&[u16]>
    ensures { option_copied result ≡ after_step (option_copied left.entry) step }
{
    match left {
        Some([first, rest @ ..]) => {
            if *first as usize == step {
                Some(rest)
            } else {
                None
            }
        }
        _ => None,
    }
}

/// What is left of a wanted path after all steps of another path. None where it doesn't begin with that.
pub(crate) fn after_path<'p>(wanted: &'p [u16], path: &[u16]) -> Option<&'p [u16]>
    ensures { option_copied result ≡ after_path (Some wanted.now) path.now }
{
    let mut left = Some(wanted);
    for step in path {
        left = after_step(left, *step as usize);
    }
    left
}

/// Whether nothing is left to walk of a wanted path that led here. False of None.
pub(crate) fn is_reached(left: Option<&[u16]>) -> bool
    ensures { result ≡ is_reached (option_copied left.entry) }
{
    match left {
        Some(rest) => rest.is_empty(),
        None => false,
    }
}

/// A view's core over the tree that it is put back to: the numbers of its actions, and the trees that fill its holes.
#[derive(Drop)]
pub(crate) struct Laid<'a> {
    pub(crate) core: Vec<usize>,
    pub(crate) held: Vec<Numbered<'a>>,
}

/// Lays the core of a view over its tree.
pub(crate) fn lay_core<'a>(
    alloc: Global,
    view: &View,
    tree: &Numbered<'a>,
) -> Result<Laid<'a>, AllocError>
    ensures core { IfOk result (λ laid. laid.core.items
        ≡ tree.now.number ∷ numbers_of (core_in view.now.root.below (number_from (suc tree.now.number) tree.now.node.now.below))) }
    ensures held { IfOk result (λ laid. numbered_trees laid.held.items
        ≡ held_in view.now.root.below (number_from (suc tree.now.number) tree.now.node.now.below)) }
{
    let below = numbered_below(alloc, tree)?;
    let mut core = Vec::new(alloc);
    let mut held = Vec::new(alloc);
    core.push(tree.number)?;
    put_core(
        alloc,
        &view.root.below,
        below.as_slice(),
        &mut core,
        &mut held,
    )?;
    Ok(Laid { core, held })
}

// The view where its path is the one that is wanted, else the first view below it with that. Where nothing is left of the wanted
// path neither is.
#[cycle(find)]
fn found_of_view<'v>(
    alloc: Global,
    view: &'v View,
    tree: &Numbered<'_>,
    left: Option<&[u16]>,
) -> Result<Option<FoundView<'v>>, AllocError>
    ensures { IfOk result (λ found. option_map found_as found
        ≡ view_or (option_copied left.entry) view.now.root (tree.now.number, tree.now.node.now.root)
        (number_from (suc tree.now.number) tree.now.node.now.below)
        (view_found (option_copied left.entry) 0 view.now.below (held_in view.now.root.below (number_from (suc tree.now.number) tree.now.node.now.below)))) }
{
    let Some(_) = left else {
        return Ok(None);
    };
    let Laid { core, held } = lay_core(alloc, view, tree)?;
    if is_reached(left) {
        return Ok(Some(FoundView {
            informees: &view.root.informees,
            confirmers: &view.root.confirmers,
            core,
        }));
    }
    found_among(alloc, &view.below, held.as_slice(), left)
}

#[cycle(find)]
fn found_among<'v>(
    alloc: Global,
    views: &'v ViewList,
    trees: &[Numbered<'_>],
    left: Option<&[u16]>,
) -> Result<Option<FoundView<'v>>, AllocError>
    ensures { IfOk result (λ found. option_map found_as found ≡ view_found (option_copied left.entry) 0 views.now (numbered_trees trees.now)) }
{
    let items = views.as_slice();
    for at in 0..items.len() {
        if at >= trees.len() {
            return Ok(None);
        }
        let found = found_of_view(alloc, &items[at], &trees[at], after_step(left, at))?;
        if found.is_some() {
            return Ok(found);
        }
    }
    Ok(None)
}

/// The view with this path, over the numbered trees of all that is opened. None where there is none.
pub(crate) fn found_at<'v>(
    alloc: Global,
    views: &'v PlacedViewList,
    trees: &[Numbered<'_>],
    path: &Path,
) -> Result<Option<FoundView<'v>>, AllocError>
    ensures { IfOk result (λ found. option_map found_as found ≡ view_found_in path.now views.now (numbered_trees trees.now)) }
{
    let items = views.as_slice();
    for at in 0..items.len() {
        if at >= trees.len() {
            return Ok(None);
        }
        let left = after_path(path.as_slice(), items[at].path.as_slice());
        let found = found_of_view(alloc, &items[at].view, &trees[at], left)?;
        if found.is_some() {
            return Ok(found);
        }
    }
    Ok(None)
}

//! All that is opened, put back to trees of actions.
ghost use Rattle.std.specs.Prelude.{◌≡◌, ◌++◌, [], IfOk, OnOk};
ghost use Rattle.ledger_model.specs.Forest.{trees_of};
ghost use Rattle.view_split.specs.Placed.{placed_forest};
ghost use Rattle.view_split.specs.SeenViews.{put_back};
ghost use Rattle.confirm_reply.specs.Nodes.{acts_of, trees_in};

use consist::Earlier;
use ledger_terms::{ActionNode, ActionNodeList};
use std::alloc::{AllocError, Global};
use view_split::{PlacedViewList, assemble};

/// The trees of actions of all views that are opened, one for each view that stands at the top.
pub(crate) fn roots_of(alloc: Global, views: &PlacedViewList) -> Result<ActionNodeList, AllocError>
    ensures { IfOk result (λ roots. roots ≡ put_back (placed_forest views.now)) }
{
    let mut roots = ActionNodeList::new(alloc);
    for placed in views.as_slice() {
        roots.push(assemble(alloc, &placed.view)?)?;
    }
    Ok(roots)
}

fn gather<'a>(trees: &'a ActionNodeList, nodes: &mut Vec<&'a ActionNode>) -> Result<(), AllocError>
    ensures { OnOk result (trees_in nodes.new.items ≡ trees_in nodes.old.items ++ trees_of trees.now) }
{
    for node in trees.as_slice() {
        nodes.push(node)?;
        gather(&node.below, nodes)?;
    }
    Ok(())
}

/// The nodes of trees in pre-order.
pub(crate) fn nodes_of<'a>(
    alloc: Global,
    trees: &'a ActionNodeList,
) -> Result<Vec<&'a ActionNode>, AllocError>
    ensures { IfOk result (λ nodes. trees_in nodes.items ≡ trees_of trees.now) }
{
    let mut nodes = Vec::new(alloc);
    gather(trees, &mut nodes)?;
    Ok(nodes)
}

/// The actions of nodes, as those before another action are asked about.
pub(crate) fn actions_of<'a>(
    alloc: Global,
    nodes: &[&'a ActionNode],
) -> Result<Vec<Earlier<'a>>, AllocError>
    ensures { IfOk result (λ acts. acts.items ≡ acts_of nodes.now) }
{
    let mut acts = Vec::new(alloc);
    for node in nodes {
        acts.push(Earlier::of(&node.root))?;
    }
    Ok(acts)
}

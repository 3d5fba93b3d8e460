//! Splitting a transaction into views.
ghost use Rattle.std.specs.Prelude.{◌≡◌, ◌++◌, ◌∷◌, [], ◌%◌, ◌^◌, true, IfOk, OnOk, None, MatchResult};
ghost use Rattle.ledger_terms.specs.Answers.{Follows};
ghost use Rattle.ledger_terms.specs.Forest.{NoRoots, join};
ghost use Rattle.ledger_terms.specs.Grown.{tree_of};
ghost use Rattle.ledger_terms.specs.Parties.{is_subset, with_parties};
ghost use Rattle.lang_eval.specs.Language.{has_roles, roles_in};
ghost use Rattle.view_split.specs.Holed.{Hole, NoMore, beside};
ghost use Rattle.view_split.specs.Split.{split};
ghost use Rattle.view_split.specs.Faults.{IsFault, fault_from, roleless_at, views_of_tx};
ghost use Rattle.view_split.specs.Walked.{IsWalked, node_fault};

use crate::begun::Begun;
use crate::core_node::{CoreChild, CoreChildList, CoreNode};
use crate::split_fault::SplitFault;
use crate::split_view::{SplitView, View, ViewList};
use crate::views::Views;
use lang_eval::{Checked, RoleFault, Roles, roles};
use ledger_terms::{Act, Action, ActionNode, ActionNodeList, Exact, PartySet, Path, Tree, Tx};
use std::alloc::{AllocError, Global};

#[tactic(auto, using(std::proofs::lemmas::List::Elements::same_from_all_zip))]
fn copy_path(path: &Path) -> Result<Path, AllocError>
    ensures { IfOk result (λ p. p ≡ path.now) }
{
    path.clone()
}

/// The path of the child with this number.
fn path_below(above: &Path, at: usize) -> Result<Path, AllocError>
    ensures { IfOk result (λ p. p ≡ above.now ++ at % 2 ^ 16 ∷ []) }
{
    let mut path = copy_path(above)?;
    path.push((at % 65536) as u16)?;
    Ok(path)
}

/// The roles of the action at a path.
fn roles_at(
    alloc: Global,
    checked: &Checked,
    action: &Action,
    path: &Path,
) -> Result<Roles, SplitFault>
    ensures { MatchResult result (λ r. (has_roles checked.now action.now ≡ true) × (r ≡ roles_in checked.now action.now))
        (λ e. IsFault (roleless_at checked.now path.now action.now) e) }
{
    match roles(alloc, checked, action) {
        Ok(roles) => Ok(roles),
        Err(RoleFault::NoRoles) => Err(SplitFault::NoRoles {
            path: copy_path(path)?,
        }),
        Err(RoleFault::Memory) => Err(SplitFault::Memory),
    }
}

/// Puts the parties of a set into another.
fn add_parties(set: &mut PartySet, more: &PartySet) -> Result<(), AllocError>
    ensures { OnOk result (set.new ≡ with_parties more.now set.old) }
{
    for party in more.as_slice() {
        set.insert(*party)?;
    }
    Ok(())
}

/// An action as one of a core, with what stands below it there.
fn core_node(act: &Act, children: CoreChildList) -> Result<CoreNode, AllocError>
    ensures { IfOk result (λ n. n ≡ record { seed = act.now.seed; action = act.now.action; children = children }) }
{
    Ok(CoreNode {
        seed: act.seed,
        action: act.action.copied()?,
        children,
    })
}

/// Whether an action with these informees stands in the core of the view around it.
fn stays_inside(informees: &PartySet, enclosing: &PartySet) -> bool
    ensures { result ≡ is_subset informees.now enclosing.now }
{
    informees.subset(enclosing)
}

/// Puts a view below another, and a hole in its place.
fn put_view(view: View, above: &mut Begun, children: &mut CoreChildList) -> Result<(), AllocError>
    ensures same { OnOk result ((above.new.informees ≡ above.old.informees) × (above.new.confirmers ≡ above.old.confirmers)) }
    ensures put { OnOk result (above.new.subviews ≡ join above.old.subviews (tree_of view)) }
    ensures hole { OnOk result (children.new ≡ beside children.old (Hole NoMore)) }
{
    children.push(CoreChild::Hole)?;
    above.subviews.push(view)?;
    Ok(())
}

/// The view that the action of a node starts.
#[cycle(split)]
fn start_view(
    alloc: Global,
    checked: &Checked,
    node: &ActionNode,
    roles: Roles,
    path: &Path,
) -> Result<View, SplitFault>
    requires { roles ≡ roles_in checked.now node.now.root.action }
    ensures view { IfOk result (λ v. tree_of v ≡ split (roles_in checked.now) (tree_of node.now)) }
    ensures fault { MatchResult result (λ _. fault_from checked.now path.now 0 node.now.below ≡ None)
        (λ e. IsFault (fault_from checked.now path.now 0 node.now.below) e) }
{
    let mut begun = Begun {
        informees: roles.informees,
        confirmers: PartySet::new(alloc),
        subviews: ViewList::new(alloc),
    };
    add_parties(&mut begun.confirmers, &roles.confirmers)?;
    let mut children = CoreChildList::new(alloc);
    split_children(alloc, checked, &node.below, path, &mut begun, &mut children)?;
    let root = SplitView {
        informees: begun.informees,
        confirmers: begun.confirmers,
        first: node.root.copied()?,
        below: children,
    };
    Ok(Tree {
        root,
        below: begun.subviews,
    })
}

/// Puts the node's action into the view's core, or a hole where it starts a view of its own.
#[cycle(split)]
fn split_node(
    alloc: Global,
    checked: &Checked,
    node: &ActionNode,
    path: &Path,
    view: &mut Begun,
    children: &mut CoreChildList,
) -> Result<(), SplitFault>
    ensures walked { OnOk result (IsWalked (roles_in checked.now) (tree_of node.now) view.old view.new children.old children.new) }
    ensures fault { MatchResult result (λ _. node_fault checked.now path.now node.now ≡ None) (λ e. IsFault (node_fault checked.now path.now node.now) e) }
{
    let roles = roles_at(alloc, checked, &node.root.action, path)?;
    if stays_inside(&roles.informees, &view.informees) {
        add_parties(&mut view.confirmers, &roles.confirmers)?;
        let mut below = CoreChildList::new(alloc);
        split_children(alloc, checked, &node.below, path, view, &mut below)?;
        children.push(CoreChild::Inner(core_node(&node.root, below)?))?;
    } else {
        let below = start_view(alloc, checked, node, roles, path)?;
        put_view(below, view, children)?;
    }
    Ok(())
}

/// Puts the actions of the nodes into the view's core down to the next views, and those into the view.
#[cycle(split)]
fn split_children(
    alloc: Global,
    checked: &Checked,
    nodes: &ActionNodeList,
    above: &Path,
    view: &mut Begun,
    children: &mut CoreChildList,
) -> Result<(), SplitFault>
    ensures walked { OnOk result (IsWalked (roles_in checked.now) nodes.now view.old view.new children.old children.new) }
    ensures fault { MatchResult result (λ _. fault_from checked.now above.now 0 nodes.now ≡ None)
        (λ e. IsFault (fault_from checked.now above.now 0 nodes.now) e) }
{
    let nodes = nodes.as_slice();
    for at in 0..nodes.len() {
        let path = path_below(above, at)?;
        split_node(alloc, checked, &nodes[at], &path, view, children)?;
    }
    Ok(())
}

/// The view that a root's action starts.
fn split_root(
    alloc: Global,
    checked: &Checked,
    node: &ActionNode,
    path: &Path,
) -> Result<View, SplitFault>
    ensures view { IfOk result (λ v. tree_of v ≡ split (roles_in checked.now) (tree_of node.now)) }
    ensures fault { MatchResult result (λ _. node_fault checked.now path.now node.now ≡ None) (λ e. IsFault (node_fault checked.now path.now node.now) e) }
{
    let roles = roles_at(alloc, checked, &node.root.action, path)?;
    start_view(alloc, checked, node, roles, path)
}

fn split_roots(
    alloc: Global,
    checked: &Checked,
    nodes: &ActionNodeList,
) -> Result<ViewList, SplitFault>
    ensures views { IfOk result (λ v. v ≡ split (roles_in checked.now) nodes.now) }
    ensures fault { MatchResult result (λ _. fault_from checked.now [] 0 nodes.now ≡ None) (λ e. IsFault (fault_from checked.now [] 0 nodes.now) e) }
{
    let top = Path::new(alloc);
    let mut views = ViewList::new(alloc);
    let nodes = nodes.as_slice();
    for at in 0..nodes.len() {
        let path = path_below(&top, at)?;
        views.push(split_root(alloc, checked, &nodes[at], &path)?)?;
    }
    Ok(views)
}

/// The views of a transaction (Canton protocol: transaction views). Each root action starts a view, and a consequence exactly where it has an informee
/// that isn't one of the view around it. Err is want of memory, or NoRoles with the path of the first action in pre-order that has no roles. A step of
/// that path has 16 bits, and of a number beyond them it has the lowest.
pub fn split(alloc: Global, checked: &Checked, tx: &Tx) -> Result<Views, SplitFault>
    ensures { Follows SplitFault.Memory result (views_of_tx checked.now tx.now) }
{
    let roots = split_roots(alloc, checked, &tx.roots)?;
    Ok(Views {
        act_as: tx.act_as.clone()?,
        ledger_time: tx.ledger_time,
        seed: tx.seed,
        roots,
    })
}

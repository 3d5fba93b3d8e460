//! Cutting a recipient's tree from a transaction's tree with every hash. Nothing is hashed here.
ghost use Rattle.std.specs.Prelude.{◌≡◌, IfOk, OnOk, false};
ghost use Rattle.ledger_terms.specs.Grown.{tree_of};
ghost use Rattle.ledger_terms.specs.Hosting.{hosts_at};
ghost use Rattle.blind_tree.specs.Vertices.{beside};
ghost use Rattle.blind_tree.specs.VertexLists.{one_vertex};
ghost use Rattle.blind_tree.specs.Blind.{is_host_named};
ghost use Rattle.blind_tree.specs.Kept.{cut_views, cut_for_mediator, cut_leaf, cut_one, cut_tree, has_kept_sight, sees_kept_root};

use crate::kept_leaf::KeptLeaf;
use crate::kept_tree::KeptTree;
use crate::kept_view::{KeptList, KeptNode};
use crate::leaf::Leaf;
use crate::recipient::Recipient;
use crate::sight::hosts_any;
use crate::tree::Tree;
use crate::vertex::{Vertex, VertexList};
use ledger_terms::{Name, ParticipantId, Topology};
use std::alloc::{AllocError, Global};

/// What a recipient gets of a transaction's tree.
pub(crate) fn cut_for(
    alloc: Global,
    kept: &KeptTree,
    sender: Name,
    topology: &Topology,
    to: Recipient,
) -> Result<Tree, AllocError>
    ensures { IfOk result (λ tree. tree ≡ cut_tree kept.now sender topology.now.hosts to) }
{
    let mut views = VertexList::new(alloc);
    let shows_requesters = match to {
        Recipient::Participant(at) => {
            cut_into(alloc, &kept.views, topology, at, false, &mut views)?;
            sees_root(&kept.views, topology, at) || is_sender(topology, at, sender)
        }
        Recipient::Mediator => {
            informees_into(alloc, &kept.views, &mut views)?;
            false
        }
    };
    Ok(Tree {
        common: leaf_of(&kept.common, true)?,
        requesters: leaf_of(&kept.requesters, shows_requesters)?,
        views,
    })
}

/// Whether the participant at an index has the sender's name.
pub(crate) fn is_sender(topology: &Topology, at: ParticipantId, sender: Name) -> bool
    ensures { result ≡ is_host_named topology.now.hosts at sender }
{
    match topology.hosts.get(at.0 as usize) {
        Some(host) => host.name == sender,
        None => false,
    }
}

/// Whether a participant sees one of these views, those below them not counted.
pub(crate) fn sees_root(views: &KeptList, topology: &Topology, at: ParticipantId) -> bool
    ensures { result ≡ sees_kept_root (hosts_at topology.now.hosts at) views.now }
{
    for view in views.as_slice() {
        if hosts_any(topology, at, &view.root.informees) {
            return true;
        }
    }
    false
}

/// Whether a participant sees one of these views, or one below them.
pub(crate) fn is_seen(views: &KeptList, topology: &Topology, at: ParticipantId) -> bool
    ensures { result ≡ has_kept_sight (hosts_at topology.now.hosts at) views.now }
{
    for view in views.as_slice() {
        if hosts_any(topology, at, &view.root.informees) || is_seen(&view.below, topology, at) {
            return true;
        }
    }
    false
}

// A leaf, plain or blind.
fn leaf_of(leaf: &KeptLeaf, shows: bool) -> Result<Leaf, AllocError>
    ensures { IfOk result (λ l. l ≡ cut_leaf shows leaf.now) }
{
    if shows {
        Ok(Leaf::Plain {
            salt: leaf.salt,
            bytes: leaf.bytes.clone()?,
        })
    } else {
        Ok(Leaf::Blind(leaf.hash))
    }
}

// Puts what a participant gets of these views at the end. `above` says whether it sees a view above them.
#[cycle(cut)]
fn cut_into(
    alloc: Global,
    views: &KeptList,
    topology: &Topology,
    at: ParticipantId,
    above: bool,
    out: &mut VertexList,
) -> Result<(), AllocError>
    ensures { OnOk result (out.new ≡ beside out.old (cut_views (hosts_at topology.now.hosts at) above views.now)) }
{
    for view in views.as_slice() {
        let sees = above || hosts_any(topology, at, &view.root.informees);
        let vertex = cut_view(alloc, view, topology, at, sees)?;
        out.push(vertex)?;
    }
    Ok(())
}

#[cycle(cut)]
fn cut_view(
    alloc: Global,
    view: &KeptNode,
    topology: &Topology,
    at: ParticipantId,
    sees: bool,
) -> Result<Vertex, AllocError>
    ensures { IfOk result (λ vertex. one_vertex vertex ≡ cut_one (hosts_at topology.now.hosts at) sees view.now.root view.now.below) }
{
    if !sees && !is_seen(&view.below, topology, at) {
        return Ok(Vertex::Blind(view.root.hash));
    }
    let mut subviews = VertexList::new(alloc);
    cut_into(alloc, &view.below, topology, at, sees, &mut subviews)?;
    Ok(Vertex::Inner {
        informees: leaf_of(&view.root.informees_leaf, sees)?,
        contents: leaf_of(&view.root.contents_leaf, sees)?,
        subviews,
    })
}

// Puts what the mediator gets of these views at the end.
#[cycle(informees)]
fn informees_into(alloc: Global, views: &KeptList, out: &mut VertexList) -> Result<(), AllocError>
    ensures { OnOk result (out.new ≡ beside out.old (cut_for_mediator views.now)) }
{
    for view in views.as_slice() {
        let vertex = informees_vertex(alloc, view)?;
        out.push(vertex)?;
    }
    Ok(())
}

#[cycle(informees)]
fn informees_vertex(alloc: Global, view: &KeptNode) -> Result<Vertex, AllocError>
    ensures { IfOk result (λ vertex. one_vertex vertex ≡ cut_for_mediator (tree_of view.now)) }
{
    let mut subviews = VertexList::new(alloc);
    informees_into(alloc, &view.below, &mut subviews)?;
    Ok(Vertex::Inner {
        informees: leaf_of(&view.root.informees_leaf, true)?,
        contents: leaf_of(&view.root.contents_leaf, false)?,
        subviews,
    })
}

//! What the mediator reads of a tree.
ghost use Rattle.std.specs.Prelude.{◌≡◌, ◌<◌, ◌++◌, ◌∷◌, [], Ok, IfOk, OnOk};
ghost use Rattle.ledger_terms.specs.Answers.{Follows, FollowsOn};
ghost use Rattle.wire_form.specs.declared.wire_fault.WireFault.TheVariants as WireFault;
ghost use Rattle.blind_tree.specs.Vertices.{AreNarrow, IsNarrow};
ghost use Rattle.blind_tree.specs.VertexLists.{one_vertex};
ghost use Rattle.blind_tree.specs.Opening.{informee_tree_of, view_roles};
ghost use Rattle.blind_tree.specs.RolesAfter.{roles_after, view_roles_after};

use crate::leaf::Leaf;
use crate::leaves::{read_head, read_roles};
use crate::roles_tree::RolesTree;
use crate::tree::Tree;
use crate::vertex::{Vertex, VertexList};
use crate::view_roles::{ViewRoles, ViewRolesList};
use ledger_terms::{PartySet, Path};
use std::alloc::{AllocError, Global};
use wire_form::WireFault;

/// The sender of a transaction, and the informees and confirmers of every view, each before those below it, as the mediator reads them in its tree. Err
/// is the first fault: a blind leaf or vertex, at place 0, or a leaf that can't be read, at the place in its bytes; or it is want of memory.
pub fn informee_tree(alloc: Global, tree: &Tree) -> Result<RolesTree, WireFault>
    requires { IsNarrow tree.now.views }
    ensures { Follows WireFault.Memory result (informee_tree_of tree.now) }
{
    let (sender, _) = read_head(&tree.common)?;
    let mut views = ViewRolesList::new(alloc);
    tell_all(alloc, &Path::new(alloc), &tree.views, &mut views)?;
    Ok(RolesTree { sender, views })
}

// Puts what is told of vertices at the end. `above` is the path of the view above them.
#[cycle(tell)]
fn tell_all(
    alloc: Global,
    above: &Path,
    vertices: &VertexList,
    out: &mut ViewRolesList,
) -> Result<(), WireFault>
    requires { IsNarrow vertices.now }
    ensures { FollowsOn WireFault.Memory out.new result (roles_after above.now 0 vertices.now out.old) }
{
    let items = vertices.as_slice();
    for at in 0..items.len() {
        tell(alloc, above, at, &items[at], out)?;
    }
    Ok(())
}

#[cycle(tell)]
#[tactic(auto, using(crate::proofs::ToldLaws::told_one))]
fn tell(
    alloc: Global,
    above: &Path,
    at: usize,
    vertex: &Vertex,
    out: &mut ViewRolesList,
) -> Result<(), WireFault>
    requires step { at < 65536 }
    requires narrow { AreNarrow (one_vertex vertex.now) }
    ensures { FollowsOn WireFault.Memory out.new result (roles_after above.now at (one_vertex vertex.now) out.old) }
{
    match vertex {
        Vertex::Blind(_) => Err(WireFault::Bad { at: 0 }),
        Vertex::Inner {
            informees,
            subviews,
            ..
        } => tell_view(alloc, above, at, informees, subviews, out),
    }
}

#[cycle(tell)]
fn tell_view(
    alloc: Global,
    above: &Path,
    at: usize,
    informees: &Leaf,
    subviews: &VertexList,
    out: &mut ViewRolesList,
) -> Result<(), WireFault>
    requires step { at < 65536 }
    requires narrow { IsNarrow subviews.now }
    ensures { FollowsOn WireFault.Memory out.new result (view_roles_after above.now at informees.now subviews.now out.old) }
{
    let (informees, confirmers) = read_roles(alloc, informees)?;
    let path = path_below(above, at)?;
    put_roles(&path, informees, confirmers, out)?;
    tell_all(alloc, &path, subviews, out)
}

fn put_roles(
    path: &Path,
    informees: PartySet,
    confirmers: PartySet,
    out: &mut ViewRolesList,
) -> Result<(), WireFault>
    ensures { FollowsOn WireFault.Memory out.new result (Ok (out.old ++ view_roles path.now (informees, confirmers) ∷ [])) }
{
    match put(path, informees, confirmers, out) {
        Ok(()) => Ok(()),
        Err(_) => Err(WireFault::Memory),
    }
}

fn put(
    path: &Path,
    informees: PartySet,
    confirmers: PartySet,
    out: &mut ViewRolesList,
) -> Result<(), AllocError>
    ensures { OnOk result (out.new ≡ out.old ++ view_roles path.now (informees, confirmers) ∷ []) }
{
    let path = path.clone()?;
    out.push(ViewRoles {
        path,
        informees,
        confirmers,
    })?;
    Ok(())
}

/// The path of the view with this number below a view.
pub(crate) fn path_below(above: &Path, at: usize) -> Result<Path, WireFault>
    requires { at < 65536 }
    ensures { Follows WireFault.Memory result (Ok (above.now ++ at ∷ [])) }
{
    match extended_path(above, at) {
        Ok(path) => Ok(path),
        Err(_) => Err(WireFault::Memory),
    }
}

fn extended_path(above: &Path, at: usize) -> Result<Path, AllocError>
    requires { at < 65536 }
    ensures { IfOk result (λ path. path ≡ above.now ++ at ∷ []) }
{
    let mut path = above.clone()?;
    path.push(at as u16)?;
    Ok(path)
}

//! What a participant reads of a tree.
ghost use Rattle.std.specs.Prelude.{◌≡◌, ◌<◌, ◌++◌, ◌∷◌, [], Ok, OnOk};
ghost use Rattle.ledger_terms.specs.Answers.{Follows, FollowsOn};
ghost use Rattle.wire_form.specs.declared.wire_fault.WireFault.TheVariants as WireFault;
ghost use Rattle.ledger_terms.specs.Grown.{tree_of};
ghost use Rattle.ledger_terms.specs.Forest.{join};
ghost use Rattle.blind_tree.specs.Vertices.{AreNarrow, IsNarrow, count};
ghost use Rattle.blind_tree.specs.VertexLists.{one_vertex};
ghost use Rattle.blind_tree.specs.Opening.{own_view, own_view_read, placed, tree_opened, view_read, views_read};
ghost use Rattle.blind_tree.specs.Opened.{inner_opened, opened_after, vertex_read};

use crate::core_read::read_core;
use crate::holes::hole_count;
use crate::informees::path_below;
use crate::leaf::Leaf;
use crate::leaves::{are_plain, read_head, read_requesters, read_roles, shown_len};
use crate::tree::Tree as BlindTree;
use crate::vertex::{Vertex, VertexList};
use ledger_terms::{Act, PartySet, Path, Tree};
use std::alloc::Global;
use view_split::{CoreNode, OpenedTree, PlacedView, PlacedViewList, SplitView, View, ViewList};
use wire_form::WireFault;

/// What a participant reads in its tree: sender, ledger time, the requesters where shown, and the topmost views whose two leaves are plain, with all
/// below them. Err is want of memory, or the first fault: at place 0 a blind common leaf, or a blind vertex or leaf below such a view; else at the
/// place in a leaf's bytes that can't be read, or at a core's end where its holes are more or fewer than the subviews.
pub fn opened(alloc: Global, tree: &BlindTree) -> Result<OpenedTree, WireFault>
    requires { IsNarrow tree.now.views }
    ensures { Follows WireFault.Memory result (tree_opened tree.now) }
{
    let (sender, ledger_time) = read_head(&tree.common)?;
    let requesters = read_requesters(alloc, &tree.requesters)?;
    let mut views = PlacedViewList::new(alloc);
    open_all(alloc, &Path::new(alloc), &tree.views, &mut views)?;
    Ok(OpenedTree {
        sender,
        ledger_time,
        requesters,
        views,
    })
}

// Puts the topmost views that vertices show at the end. `above` is the path of the view above them.
#[cycle(open)]
fn open_all(
    alloc: Global,
    above: &Path,
    vertices: &VertexList,
    out: &mut PlacedViewList,
) -> Result<(), WireFault>
    requires { IsNarrow vertices.now }
    ensures { FollowsOn WireFault.Memory out.new result (opened_after above.now 0 vertices.now out.old) }
{
    let items = vertices.as_slice();
    for at in 0..items.len() {
        open_vertex(alloc, above, at, &items[at], out)?;
    }
    Ok(())
}

#[cycle(open)]
#[tactic(auto, using(crate::proofs::OpenedLaws::opened_one))]
fn open_vertex(
    alloc: Global,
    above: &Path,
    at: usize,
    vertex: &Vertex,
    out: &mut PlacedViewList,
) -> Result<(), WireFault>
    requires step { at < 65536 }
    requires narrow { AreNarrow (one_vertex vertex.now) }
    ensures { FollowsOn WireFault.Memory out.new result (opened_after above.now at (one_vertex vertex.now) out.old) }
{
    match vertex {
        Vertex::Blind(_) => Ok(()),
        Vertex::Inner {
            informees,
            contents,
            subviews,
        } => {
            let path = path_below(above, at)?;
            open_inner(alloc, path, informees, contents, subviews, out)
        }
    }
}

#[cycle(open)]
fn open_inner(
    alloc: Global,
    path: Path,
    informees: &Leaf,
    contents: &Leaf,
    subviews: &VertexList,
    out: &mut PlacedViewList,
) -> Result<(), WireFault>
    requires { IsNarrow subviews.now }
    ensures { FollowsOn WireFault.Memory out.new result (inner_opened path informees.now contents.now subviews.now out.old) }
{
    if are_plain(informees, contents) {
        let view = read_view(alloc, informees, contents, subviews)?;
        put_view(path, view, out)
    } else {
        open_all(alloc, &path, subviews, out)
    }
}

pub(crate) fn put_view(path: Path, view: View, out: &mut PlacedViewList) -> Result<(), WireFault>
    ensures { FollowsOn WireFault.Memory out.new result (Ok (out.old ++ placed path view ∷ [])) }
{
    match out.push(PlacedView { path, view }) {
        Ok(()) => Ok(()),
        Err(_) => Err(WireFault::Memory),
    }
}

fn view_with(informees: PartySet, confirmers: PartySet, core: CoreNode) -> SplitView
    ensures { result ≡ own_view ((informees, confirmers), core) }
{
    let CoreNode {
        seed,
        action,
        children,
    } = core;
    SplitView {
        informees,
        confirmers,
        first: Act { seed, action },
        below: children,
    }
}

/// The view that the two leaves of a vertex show. Of the vertices below it, `subviews`, only the number is tried, which the core's holes have to have.
/// Err is at place 0 of a blind leaf, at the place in a leaf's bytes that can't be read, or at the core's end where the numbers differ; or it is want
/// of memory.
pub fn own_view(
    alloc: Global,
    informees: &Leaf,
    contents: &Leaf,
    subviews: &VertexList,
) -> Result<SplitView, WireFault>
    ensures { Follows WireFault.Memory result (own_view_read informees.now contents.now (count subviews.now)) }
{
    let (informees, confirmers) = read_roles(alloc, informees)?;
    let core = read_core(alloc, contents)?;
    if hole_count(&core.children) != subviews.len() {
        return Err(WireFault::Bad {
            at: shown_len(contents),
        });
    }
    Ok(view_with(informees, confirmers, core))
}

// The view of a vertex with all below it.
#[cycle(read)]
pub(crate) fn read_view(
    alloc: Global,
    informees: &Leaf,
    contents: &Leaf,
    subviews: &VertexList,
) -> Result<View, WireFault>
    ensures { Follows WireFault.Memory result (view_read informees.now contents.now subviews.now) }
{
    let root = own_view(alloc, informees, contents, subviews)?;
    let below = read_views(alloc, subviews)?;
    Ok(Tree { root, below })
}

#[cycle(read)]
fn read_views(alloc: Global, vertices: &VertexList) -> Result<ViewList, WireFault>
    ensures { Follows WireFault.Memory result (views_read vertices.now) }
{
    let mut views = ViewList::new(alloc);
    for vertex in vertices.as_slice() {
        let view = read_vertex(alloc, vertex)?;
        push_view(view, &mut views)?;
    }
    Ok(views)
}

#[cycle(read)]
fn read_vertex(alloc: Global, vertex: &Vertex) -> Result<View, WireFault>
    ensures { Follows WireFault.Memory result (vertex_read vertex.now) }
{
    match vertex {
        Vertex::Blind(_) => Err(WireFault::Bad { at: 0 }),
        Vertex::Inner {
            informees,
            contents,
            subviews,
        } => read_view(alloc, informees, contents, subviews),
    }
}

fn push_view(view: View, views: &mut ViewList) -> Result<(), WireFault>
    ensures { FollowsOn WireFault.Memory views.new result (Ok (join views.old (tree_of view))) }
{
    match views.push(view) {
        Ok(()) => Ok(()),
        Err(_) => Err(WireFault::Memory),
    }
}

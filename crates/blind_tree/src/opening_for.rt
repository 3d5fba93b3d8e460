//! What a participant reads in bytes that anybody may have made.
ghost use Rattle.std.specs.Prelude.{◌≡◌, ◌<◌, ◌∷◌, Ok, IfOk, if◌then◌else◌};
ghost use Rattle.std.specs.List.{list_all};
ghost use Rattle.sha2.specs.Sha256.{sha256};
ghost use Rattle.ledger_terms.specs.Answers.{Follows, FollowsOn, check};
ghost use Rattle.wire_form.specs.declared.wire_fault.WireFault.TheVariants as WireFault;
ghost use Rattle.blind_tree.specs.Vertices.{AreNarrow, IsNarrow};
ghost use Rattle.blind_tree.specs.VertexLists.{one_vertex};
ghost use Rattle.blind_tree.specs.OpenedFor.{answered, are_listed, is_end, is_listed, missing, open_or_missing, opened_for_root};
ghost use Rattle.blind_tree.specs.OpenedFor.{opened_of_views, requesters_if, stands_at};
ghost use Rattle.blind_tree.specs.TreeHashes.{hash_of_root};
ghost use Rattle.blind_tree.specs.ListedAfter.{inner_listed, listed_after, stands_in};

use crate::alike::verify_beside;
use crate::decode::decode_tree;
use crate::informees::path_below;
use crate::leaf::Leaf;
use crate::leaves::{read_head, read_set};
use crate::listed::Listed;
use crate::opening::{put_view, read_view};
use crate::root::verify;
use crate::shown_for::OpenedFor;
use crate::tree::Tree;
use crate::vertex::{Vertex, VertexList};
use ledger_terms::{Hash, PartySet, Path, PathList};
use std::alloc::{AllocError, Global};
use view_split::{OpenedTree, PlacedViewList};
use wire_form::WireFault;

/// What bytes open to a participant that sees the views with the paths `seen`, and the requesters too if `requesters` says so. Mismatch: they are no
/// tree whose hash is `root`. Missing: they don't show the common leaf, a view asked for or the requesters asked for, or show a view below one that
/// isn't in `seen`, or what they show can't be read. Err is want of memory.
pub fn opened_for(
    alloc: Global,
    bytes: &[u8],
    root: &Hash,
    seen: &PathList,
    requesters: bool,
) -> Result<OpenedFor, AllocError>
    ensures { IfOk result (λ opened. opened ≡ opened_for_root root.now seen.now requesters bytes.now) }
{
    let tree = match decode_tree(alloc, bytes) {
        Ok(tree) => tree,
        Err(WireFault::Bad { .. }) => return Ok(OpenedFor::Mismatch),
        Err(WireFault::Memory) => return Err(AllocError),
    };
    if !verify(alloc, &tree, root)? {
        return Ok(OpenedFor::Mismatch);
    }
    open_tree(alloc, &tree, seen, requesters)
}

/// What `opened_for` answers of the bytes, with less hashing: `told` is another tree whose hash is `root`, as the mediator's, and what both trees show
/// alike isn't hashed. Err is want of memory.
pub fn opened_beside(
    alloc: Global,
    bytes: &[u8],
    root: &Hash,
    told: &Tree,
    seen: &PathList,
    requesters: bool,
) -> Result<OpenedFor, AllocError>
    requires narrow { IsNarrow told.now.views }
    requires root { root.now ≡ hash_of_root sha256 told.now }
    ensures { IfOk result (λ opened. opened ≡ opened_for_root root.now seen.now requesters bytes.now) }
{
    let tree = match decode_tree(alloc, bytes) {
        Ok(tree) => tree,
        Err(WireFault::Bad { .. }) => return Ok(OpenedFor::Mismatch),
        Err(WireFault::Memory) => return Err(AllocError),
    };
    if !verify_beside(alloc, &tree, told, root)? {
        return Ok(OpenedFor::Mismatch);
    }
    open_tree(alloc, &tree, seen, requesters)
}

fn open_tree(
    alloc: Global,
    tree: &Tree,
    seen: &PathList,
    requesters: bool,
) -> Result<OpenedFor, AllocError>
    requires { IsNarrow tree.now.views }
    ensures { IfOk result (λ opened. opened ≡ open_or_missing (opened_of_views seen.now requesters tree.now)) }
{
    match open_views(alloc, tree, seen, requesters) {
        Ok(opened) => Ok(OpenedFor::Open(opened)),
        Err(WireFault::Bad { .. }) => Ok(OpenedFor::Missing),
        Err(WireFault::Memory) => Err(AllocError),
    }
}

fn open_views(
    alloc: Global,
    tree: &Tree,
    seen: &PathList,
    requesters: bool,
) -> Result<OpenedTree, WireFault>
    requires { IsNarrow tree.now.views }
    ensures { Follows WireFault.Memory result (opened_of_views seen.now requesters tree.now) }
{
    check_stand(seen, &tree.views)?;
    let (sender, ledger_time) = read_head(&tree.common)?;
    let requesters = read_if(alloc, requesters, &tree.requesters)?;
    let mut views = PlacedViewList::new(alloc);
    open_all(
        &mut Listed::new(seen),
        &Path::new(alloc),
        &tree.views,
        &mut views,
    )?;
    Ok(OpenedTree {
        sender,
        ledger_time,
        requesters,
        views,
    })
}

fn read_if(alloc: Global, wanted: bool, leaf: &Leaf) -> Result<Option<PartySet>, WireFault>
    ensures { Follows WireFault.Memory result (requesters_if wanted leaf.now) }
{
    if !wanted {
        return Ok(None);
    }
    match leaf {
        Leaf::Blind(_) => Err(WireFault::Bad { at: 0 }),
        Leaf::Plain { bytes, .. } => Ok(Some(read_set(alloc, bytes)?)),
    }
}

// Whether a vertex stands at each of these paths.
fn all_stand(seen: &PathList, vertices: &VertexList) -> bool
    ensures { result ≡ list_all (stands_at 0 vertices.now) seen.now }
{
    seen.as_slice()
        .iter()
        .all(|path| stands(vertices, path.as_slice()))
}

#[cycle(stands)]
fn stands(vertices: &VertexList, path: &[u16]) -> bool
    ensures { result ≡ stands_at 0 vertices.now path.now }
{
    match path {
        [] => false,
        [step, rest @ ..] => stands_below(vertices, *step as usize, rest),
    }
}

// Whether a vertex stands at a path with this first step.
#[cycle(stands)]
fn stands_below(vertices: &VertexList, step: usize, rest: &[u16]) -> bool
    ensures { result ≡ stands_at 0 vertices.now (step ∷ rest.now) }
{
    let items = vertices.as_slice();
    if step >= items.len() {
        return false;
    }
    stands_in(&items[step], rest)
}

// Whether one stands at what is left of a path below a vertex.
#[cycle(stands)]
fn stands_in(vertex: &Vertex, rest: &[u16]) -> bool
    ensures { result ≡ stands_in vertex.now rest.now }
{
    match vertex {
        Vertex::Blind(_) => is_end(rest),
        Vertex::Inner { subviews, .. } => is_end(rest) || stands(subviews, rest),
    }
}

fn is_end(path: &[u16]) -> bool
    ensures { result ≡ is_end path.now }
{
    match path {
        [] => true,
        [_, ..] => false,
    }
}

fn check_stand(seen: &PathList, vertices: &VertexList) -> Result<(), WireFault>
    ensures { Follows WireFault.Memory result (check (list_all (stands_at 0 vertices.now) seen.now) (WireFault.Bad 0)) }
{
    if all_stand(seen, vertices) {
        Ok(())
    } else {
        Err(WireFault::Bad { at: 0 })
    }
}

// Whether all vertices below a path are listed.
#[cycle(listed)]
fn are_all_listed(
    seen: &mut Listed<'_>,
    above: &Path,
    vertices: &VertexList,
) -> Result<bool, WireFault>
    requires { IsNarrow vertices.now }
    ensures answer { Follows WireFault.Memory result (answered (are_listed (is_listed seen.old) above.now 0 vertices.now)) }
    ensures kept { seen.new ≡ seen.old }
{
    let items = vertices.as_slice();
    for at in 0..items.len() {
        if !is_vertex_listed(seen, above, at, &items[at])? {
            return Ok(false);
        }
    }
    Ok(true)
}

#[cycle(listed)]
#[tactic(auto, using(crate::proofs::ListedLaws::each_one))]
fn is_vertex_listed(
    seen: &mut Listed<'_>,
    above: &Path,
    at: usize,
    vertex: &Vertex,
) -> Result<bool, WireFault>
    requires step { at < 65536 }
    requires narrow { AreNarrow (one_vertex vertex.now) }
    ensures answer { Follows WireFault.Memory result (answered (are_listed (is_listed seen.old) above.now at (one_vertex vertex.now))) }
    ensures kept { seen.new ≡ seen.old }
{
    let path = path_below(above, at)?;
    if !seen.has(&path) {
        return Ok(false);
    }
    match vertex {
        Vertex::Blind(_) => Ok(true),
        Vertex::Inner { subviews, .. } => are_all_listed(seen, &path, subviews),
    }
}

// Puts the topmost listed views of vertices at the end. `above` is the path of the view above them.
#[cycle(open_listed)]
fn open_all(
    seen: &mut Listed<'_>,
    above: &Path,
    vertices: &VertexList,
    out: &mut PlacedViewList,
) -> Result<(), WireFault>
    requires { IsNarrow vertices.now }
    ensures opened { FollowsOn WireFault.Memory out.new result (listed_after (is_listed seen.old) above.now 0 vertices.now out.old) }
    ensures kept { seen.new ≡ seen.old }
{
    let items = vertices.as_slice();
    for at in 0..items.len() {
        open_vertex(seen, above, at, &items[at], out)?;
    }
    Ok(())
}

#[cycle(open_listed)]
#[tactic(auto, using(crate::proofs::ListedLaws::listed_one))]
fn open_vertex(
    seen: &mut Listed<'_>,
    above: &Path,
    at: usize,
    vertex: &Vertex,
    out: &mut PlacedViewList,
) -> Result<(), WireFault>
    requires step { at < 65536 }
    requires narrow { AreNarrow (one_vertex vertex.now) }
    ensures opened { FollowsOn WireFault.Memory out.new result (listed_after (is_listed seen.old) above.now at (one_vertex vertex.now) out.old) }
    ensures kept { seen.new ≡ seen.old }
{
    let path = path_below(above, at)?;
    match vertex {
        Vertex::Blind(_) => unless_listed(seen, &path),
        Vertex::Inner {
            informees,
            contents,
            subviews,
        } => open_inner(seen, path, informees, contents, subviews, out),
    }
}

// A vertex that shows its hash alone can't be opened.
fn unless_listed(seen: &mut Listed<'_>, path: &Path) -> Result<(), WireFault>
    ensures answer { Follows WireFault.Memory result (if is_listed seen.old path.now then missing else Ok tt) }
    ensures kept { seen.new ≡ seen.old }
{
    if seen.has(path) {
        Err(WireFault::Bad { at: 0 })
    } else {
        Ok(())
    }
}

#[cycle(open_listed)]
fn open_inner(
    seen: &mut Listed<'_>,
    path: Path,
    informees: &Leaf,
    contents: &Leaf,
    subviews: &VertexList,
    out: &mut PlacedViewList,
) -> Result<(), WireFault>
    requires { IsNarrow subviews.now }
    ensures opened { FollowsOn WireFault.Memory out.new result (inner_listed (is_listed seen.old) path informees.now contents.now subviews.now out.old) }
    ensures kept { seen.new ≡ seen.old }
{
    if !seen.has(&path) {
        return open_all(seen, &path, subviews, out);
    }
    if !are_all_listed(seen, &path, subviews)? {
        return Err(WireFault::Bad { at: 0 });
    }
    let view = read_view(*out.allocator(), informees, contents, subviews)?;
    put_view(path, view, out)
}

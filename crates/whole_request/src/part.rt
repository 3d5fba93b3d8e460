//! What an envelope shows of views side by side.
ghost use Rattle.std.specs.Prelude.{◌≡◌, ◌++◌, IfOk, OnOk, option_copied, option_to_list};
ghost use Rattle.framed_form.specs.Together.{first_view, view_at, view_in};
ghost use Rattle.blind_tree.specs.OpenedFor.{is_listed};
ghost use Rattle.blind_tree.specs.VertexLists.{one_vertex};
ghost use Rattle.whole_request.specs.Places.{below_at, from, part_at, parts_at, shown_below, subviews_in};

use blind_tree::{Vertex, VertexList, own_view};
use ledger_terms::{Path, PathList};
use std::alloc::{AllocError, Global};
use std::marker::Model;
use view_split::SplitView;
use wire_form::WireFault;

/// Vertices of a complete envelope, and the paths of the views that it opens.
#[derive(Drop)]
pub(crate) struct Part<'a> {
    seen: &'a PathList,
    vertices: &'a VertexList,
}

impl<'a> Model for Part<'a> {
    ghost use Rattle.std.specs.Coded.{codes, coded×};
    ghost use Rattle.blind_tree.specs.Vertices.{coded_vertices};
    ghost use Rattle.whole_request.specs.Places.{Shown};

    ghost Value = { Shown };

    ghost coded = { coded× (Prim.hlevel codes) coded_vertices };

    ghost view = { λ p. (p.seen.now, p.vertices.now) };
}

impl<'a> Part<'a> {
    /// The vertices of an envelope that opens the views with these paths.
    pub(crate) fn new(seen: &'a PathList, vertices: &'a VertexList) -> Part<'a>
        ensures { result ≡ (seen.now, vertices.now) }
    {
        Part { seen, vertices }
    }

    fn seen(&self) -> &'a PathList
        ensures { result.now ≡ self.now.0 }
    {
        self.seen
    }

    fn vertices(&self) -> &'a VertexList
        ensures { result.now ≡ self.now.1 }
    {
        self.vertices
    }
}

fn is_listed(paths: &PathList, path: &Path) -> bool
    ensures { result ≡ is_listed paths.now path.now }
{
    paths.as_slice().iter().any(|listed| listed == path)
}

/// The view at a path, the last step of which is `at`, from the first envelope that opens it. None where none does.
pub(crate) fn view_at(
    alloc: Global,
    path: &Path,
    at: usize,
    parts: &[Part<'_>],
) -> Result<Option<SplitView>, AllocError>
    ensures { IfOk result (λ view. view ≡ view_at path.now (parts_at at parts.now)) }
{
    for part in parts {
        if let Some(view) = view_in(alloc, path, at, part)? {
            return Ok(Some(view));
        }
    }
    Ok(None)
}

fn view_in(
    alloc: Global,
    path: &Path,
    at: usize,
    part: &Part<'_>,
) -> Result<Option<SplitView>, AllocError>
    ensures { IfOk result (λ view. view ≡ view_in path.now (part_at at part.now)) }
{
    if is_listed(part.seen(), path) {
        nth_view(alloc, part.vertices(), at)
    } else {
        Ok(None)
    }
}

// The view of one of these vertices, where it shows it.
fn nth_view(
    alloc: Global,
    vertices: &VertexList,
    at: usize,
) -> Result<Option<SplitView>, AllocError>
    ensures { IfOk result (λ view. view ≡ first_view (from at vertices.now)) }
{
    let items = vertices.as_slice();
    if at >= items.len() {
        return Ok(None);
    }
    vertex_view(alloc, &items[at])
}

fn vertex_view(alloc: Global, vertex: &Vertex) -> Result<Option<SplitView>, AllocError>
    ensures { IfOk result (λ view. view ≡ first_view (one_vertex vertex.now)) }
{
    match vertex {
        Vertex::Blind(_) => Ok(None),
        Vertex::Inner {
            informees,
            contents,
            subviews,
        } => match own_view(alloc, informees, contents, subviews) {
            Ok(view) => Ok(Some(view)),
            Err(WireFault::Bad { .. }) => Ok(None),
            Err(WireFault::Memory) => Err(AllocError),
        },
    }
}

/// What envelopes show below the view with the number `at` among those side by side. Where that is blinded in an envelope, it has no part here.
pub(crate) fn parts_below<'a>(
    alloc: Global,
    at: usize,
    parts: &[Part<'a>],
) -> Result<Vec<Part<'a>>, AllocError>
    ensures { IfOk result (λ below. below.items ≡ shown_below at parts.now) }
{
    let mut below = Vec::new(alloc);
    for part in parts {
        push_below(part, at, &mut below)?;
    }
    Ok(below)
}

fn push_below<'a>(part: &Part<'a>, at: usize, out: &mut Vec<Part<'a>>) -> Result<(), AllocError>
    ensures { OnOk result (out.new.items ≡ out.old.items ++ option_to_list (below_at at part.now)) }
{
    if let Some(subviews) = subviews_at(part.vertices(), at) {
        out.push(Part::new(part.seen(), subviews))?;
    }
    Ok(())
}

// What stands below one of these vertices, where that is shown.
fn subviews_at(vertices: &VertexList, at: usize) -> Option<&VertexList>
    ensures { option_copied result ≡ subviews_in (from at vertices.now) }
{
    let items = vertices.as_slice();
    if at >= items.len() {
        return None;
    }
    subviews_of(&items[at])
}

fn subviews_of(vertex: &Vertex) -> Option<&VertexList>
    ensures { option_copied result ≡ subviews_in (one_vertex vertex.now) }
{
    match vertex {
        Vertex::Blind(_) => None,
        Vertex::Inner { subviews, .. } => Some(subviews),
    }
}

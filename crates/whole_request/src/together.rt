//! The views of a request, put together as the mediator is told of them.
ghost use Rattle.std.specs.Prelude.{◌≡◌, ◌<◌, ◌++◌, ◌∷◌, [], IfOk, option_map};
ghost use Rattle.ledger_terms.specs.Grown.{tree_of};
ghost use Rattle.blind_tree.specs.Vertices.{AreNarrow, IsNarrow};
ghost use Rattle.blind_tree.specs.VertexLists.{one_vertex};
ghost use Rattle.whole_request.specs.Places.{root_together, together};

use crate::part::{Part, parts_below, view_at};
use blind_tree::{Vertex, VertexList};
use ledger_terms::{Path, Tree};
use std::alloc::{AllocError, Global};
use view_split::{View, ViewList};

/// All views that the mediator's vertices stand for, each from the first envelope that opens it, and None where one is opened by no envelope. `above`
/// is the path of the view above them, and `parts` is what envelopes show of them.
#[cycle(together)]
pub(crate) fn views_together(
    alloc: Global,
    above: &Path,
    parts: &[Part<'_>],
    told: &VertexList,
) -> Result<Option<ViewList>, AllocError>
    requires { IsNarrow told.now }
    ensures { IfOk result (λ views. views ≡ together above.now 0 parts.now told.now) }
{
    let items = told.as_slice();
    let mut views = ViewList::new(alloc);
    for at in 0..items.len() {
        let Some(view) = vertex_together(alloc, above, at, parts, &items[at])? else {
            return Ok(None);
        };
        views.push(view)?;
    }
    Ok(Some(views))
}

#[cycle(together)]
fn vertex_together(
    alloc: Global,
    above: &Path,
    at: usize,
    parts: &[Part<'_>],
    vertex: &Vertex,
) -> Result<Option<View>, AllocError>
    requires step { at < 65536 }
    requires narrow { AreNarrow (one_vertex vertex.now) }
    ensures { IfOk result (λ view. option_map tree_of view ≡ together above.now at parts.now (one_vertex vertex.now)) }
{
    match vertex {
        Vertex::Blind(_) => Ok(None),
        Vertex::Inner { subviews, .. } => {
            let path = path_below(above, at)?;
            view_together(alloc, path, at, parts, subviews)
        }
    }
}

// The view at a path, the last step of which is `at`, with all below it.
#[cycle(together)]
fn view_together(
    alloc: Global,
    path: Path,
    at: usize,
    parts: &[Part<'_>],
    told: &VertexList,
) -> Result<Option<View>, AllocError>
    requires { IsNarrow told.now }
    ensures { IfOk result (λ view. option_map tree_of view ≡ root_together path at parts.now told.now) }
{
    let Some(root) = view_at(alloc, &path, at, parts)? else {
        return Ok(None);
    };
    let below = parts_below(alloc, at, parts)?;
    let Some(below) = views_together(alloc, &path, below.as_slice(), told)? else {
        return Ok(None);
    };
    Ok(Some(Tree { root, below }))
}

fn path_below(above: &Path, at: usize) -> Result<Path, AllocError>
    requires { at < 65536 }
    ensures { IfOk result (λ path. path ≡ above.now ++ at ∷ []) }
{
    let mut path = above.clone()?;
    path.push(at as u16)?;
    Ok(path)
}

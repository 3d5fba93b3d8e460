//! Root hashes of trees.
ghost use Rattle.std.specs.Prelude.{◌≡◌, ◌++◌, ◌∷◌, [], IfOk, OnOk};
ghost use Rattle.std.specs.Bool.{Decides};
ghost use Rattle.sha2.specs.Sha256.{sha256};
ghost use Rattle.blind_tree.specs.Vertices.{IsNarrow, AreNarrow};
ghost use Rattle.blind_tree.specs.TreeHashes.{hashes_of_vertices, hash_of_root};
ghost use Rattle.blind_tree.specs.VertexLists.{one_vertex};

use crate::leaf::hash_of;
use crate::tree::Tree;
use crate::vertex::{Vertex, VertexList};
use hash_id::{tree_hash, view_hash};
use ledger_terms::Hash;
use std::alloc::{AllocError, Global};

/// The root hash of a tree, the same whatever the tree shows. At most 65,536 vertices may stand side by side in it, at the top and below each
/// (`IsNarrow`). Err is want of memory.
pub fn root_of(alloc: Global, tree: &Tree) -> Result<Hash, AllocError>
    requires { IsNarrow tree.now.views }
    ensures { IfOk result (λ hash. hash ≡ hash_of_root sha256 tree.now) }
{
    let mut views = Vec::new(alloc);
    hashes_into(&tree.views, &mut views)?;
    let common = hash_of(1, &tree.common);
    let requesters = hash_of(2, &tree.requesters);
    Ok(tree_hash(&common, &requesters, views.as_slice()))
}

/// Whether `root` is the root hash of a tree, so that an envelope can be told from one of another request. At most 65,536 vertices may stand side by
/// side at the tree's top and below each vertex (`IsNarrow`). Err is want of memory.
pub fn verify(alloc: Global, tree: &Tree, root: &Hash) -> Result<bool, AllocError>
    requires { IsNarrow tree.now.views }
    ensures { IfOk result (λ same. Decides same (root.now ≡ hash_of_root sha256 tree.now)) }
{
    let hash = root_of(alloc, tree)?;
    Ok(*root == hash)
}

// Puts the hashes of vertices at the end.
#[cycle(hash)]
fn hashes_into(vertices: &VertexList, out: &mut Vec<Hash>) -> Result<(), AllocError>
    requires { AreNarrow vertices.now }
    ensures { OnOk result (out.new.items ≡ out.old.items ++ hashes_of_vertices sha256 vertices.now) }
{
    for vertex in vertices.as_slice() {
        let hash = hash_of_vertex(*out.allocator(), vertex)?;
        out.push(hash)?;
    }
    Ok(())
}

/// The hash of a vertex, the same whatever it shows.
#[cycle(hash)]
pub(crate) fn hash_of_vertex(alloc: Global, vertex: &Vertex) -> Result<Hash, AllocError>
    requires { AreNarrow (one_vertex vertex.now) }
    ensures { IfOk result (λ hash. hashes_of_vertices sha256 (one_vertex vertex.now) ≡ hash ∷ []) }
{
    match vertex {
        Vertex::Blind(hash) => Ok(*hash),
        Vertex::Inner {
            informees,
            contents,
            subviews,
        } => {
            let mut below = Vec::new(alloc);
            hashes_into(subviews, &mut below)?;
            let first = hash_of(3, informees);
            let second = hash_of(4, contents);
            Ok(view_hash(&first, &second, below.as_slice()))
        }
    }
}

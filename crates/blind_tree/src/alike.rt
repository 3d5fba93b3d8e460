//! Trees that are of one hash by what they show.
ghost use Rattle.std.specs.Prelude.{◌≡◌, true, IfOk};
ghost use Rattle.std.specs.Bool.{Decides};
ghost use Rattle.sha2.specs.Sha256.{sha256};
ghost use Rattle.blind_tree.specs.TreeHashes.{hash_of_leaf, hash_of_root, hashes_of_vertices};
ghost use Rattle.blind_tree.specs.VertexLists.{one_vertex};
ghost use Rattle.blind_tree.specs.Vertices.{AreNarrow, IsNarrow};
ghost use Rattle.blind_tree.specs.declared.leaf.Leaf.TheVariants.{Plain};
ghost use Rattle.blind_tree.specs.declared.vertex.Vertex.TheVariants.{Inner};

use crate::leaf::{Leaf, hash_of};
use crate::root::{hash_of_vertex, verify};
use crate::tree::Tree;
use crate::vertex::{Vertex, VertexList};
use ledger_terms::{Bytes, Hash};
use std::alloc::{AllocError, Global};

/// Whether `tree` has the hash `root`, which is the hash of the tree `told`. Where the two are found alike part by part, what both show isn't hashed,
/// which costs less than `verify`; else all of `tree` is hashed. Err is want of memory.
pub fn verify_beside(
    alloc: Global,
    tree: &Tree,
    told: &Tree,
    root: &Hash,
) -> Result<bool, AllocError>
    requires narrow { IsNarrow tree.now.views }
    requires told { IsNarrow told.now.views }
    requires root { root.now ≡ hash_of_root sha256 told.now }
    ensures { IfOk result (λ same. Decides same (root.now ≡ hash_of_root sha256 tree.now)) }
{
    if are_alike(alloc, tree, told)? {
        return Ok(true);
    }
    verify(alloc, tree, root)
}

// Whether two trees are of one hash by what they show.
fn are_alike(alloc: Global, tree: &Tree, told: &Tree) -> Result<bool, AllocError>
    requires { AreNarrow told.now.views }
    ensures { IfOk result (λ alike. alike ≡ true → hash_of_root sha256 tree.now ≡ hash_of_root sha256 told.now) }
{
    if !is_leaf_alike(1, &tree.common, &told.common)
        || !is_leaf_alike(2, &tree.requesters, &told.requesters)
    {
        return Ok(false);
    }
    are_vertices_alike(alloc, &tree.views, &told.views)
}

// Whether two leaves of a kind are of one hash.
fn is_leaf_alike(kind: u8, leaf: &Leaf, told: &Leaf) -> bool
    ensures { result ≡ true → hash_of_leaf sha256 kind leaf.now ≡ hash_of_leaf sha256 kind told.now }
{
    is_same_leaf(leaf, told) || hash_of(kind, leaf) == hash_of(kind, told)
}

// Whether two leaves are plain, and show the same.
fn is_same_leaf(leaf: &Leaf, told: &Leaf) -> bool
    ensures { result ≡ true → leaf.now ≡ told.now }
{
    match leaf {
        Leaf::Blind(_) => false,
        Leaf::Plain { salt, bytes } => shows(told, salt, bytes),
    }
}

fn shows(leaf: &Leaf, salt: &Hash, bytes: &Bytes) -> bool
    ensures { result ≡ true → Plain salt.now bytes.now ≡ leaf.now }
{
    match leaf {
        Leaf::Blind(_) => false,
        Leaf::Plain {
            salt: shown,
            bytes: these,
        } => *shown == *salt && *these == *bytes,
    }
}

#[cycle(alike)]
fn are_vertices_alike(
    alloc: Global,
    vertices: &VertexList,
    told: &VertexList,
) -> Result<bool, AllocError>
    requires { AreNarrow told.now }
    ensures { IfOk result (λ alike. alike ≡ true → hashes_of_vertices sha256 vertices.now ≡ hashes_of_vertices sha256 told.now) }
{
    let items = vertices.as_slice();
    let others = told.as_slice();
    if items.len() != others.len() {
        return Ok(false);
    }
    for at in 0..items.len() {
        if !is_vertex_alike(alloc, &items[at], &others[at])? {
            return Ok(false);
        }
    }
    Ok(true)
}

#[cycle(alike)]
fn is_vertex_alike(alloc: Global, vertex: &Vertex, told: &Vertex) -> Result<bool, AllocError>
    requires { AreNarrow (one_vertex told.now) }
    ensures { IfOk result (λ alike. alike ≡ true
        → hashes_of_vertices sha256 (one_vertex vertex.now) ≡ hashes_of_vertices sha256 (one_vertex told.now)) }
{
    match vertex {
        Vertex::Blind(hash) => {
            let other = hash_of_vertex(alloc, told)?;
            Ok(*hash == other)
        }
        Vertex::Inner {
            informees,
            contents,
            subviews,
        } => is_inner_alike(alloc, informees, contents, subviews, told),
    }
}

#[cycle(alike)]
fn is_inner_alike(
    alloc: Global,
    informees: &Leaf,
    contents: &Leaf,
    subviews: &VertexList,
    told: &Vertex,
) -> Result<bool, AllocError>
    requires { AreNarrow (one_vertex told.now) }
    ensures { IfOk result (λ alike. alike ≡ true
        → hashes_of_vertices sha256 (one_vertex (Inner informees.now contents.now subviews.now)) ≡ hashes_of_vertices sha256 (one_vertex told.now)) }
{
    match told {
        Vertex::Blind(_) => Ok(false),
        Vertex::Inner {
            informees: told_informees,
            contents: told_contents,
            subviews: told_subviews,
        } => {
            if !is_leaf_alike(3, informees, told_informees)
                || !is_leaf_alike(4, contents, told_contents)
            {
                return Ok(false);
            }
            are_vertices_alike(alloc, subviews, told_subviews)
        }
    }
}

//! Writing trees as bytes.
ghost use Rattle.std.specs.Prelude.{◌≡◌, ◌++◌, IfOk, OnOk};
ghost use Rattle.blind_tree.specs.Spelling.{spell_leaf, spell_tree, spell_vertex, spell_vertices};

use crate::leaf::Leaf;
use crate::tree::Tree;
use crate::vertex::{Vertex, VertexList};
use ledger_terms::{Bytes, Exact};
use std::alloc::{AllocError, Global};
use wire_form::{encode_hash, encode_u32};

/// How many bytes are made room for at first: a tree of a few views has no more.
pub(crate) const USUAL_TREE: usize = 960;

/// The spelling of a tree. A count or a length that has no room is written by its lowest bytes, so that a tree can be read again only where
/// `is_spellable` says so. Err is want of memory.
pub fn encode_tree(alloc: Global, tree: &Tree) -> Result<Bytes, AllocError>
    ensures { IfOk result (λ bytes. bytes ≡ spell_tree tree.now) }
{
    let mut out = Bytes::with_room(alloc, USUAL_TREE)?;
    encode_leaf(&tree.common, &mut out)?;
    encode_leaf(&tree.requesters, &mut out)?;
    encode_vertices(&tree.views, &mut out)?;
    // what is kept has no room that is left over
    out.copied()
}

// Puts a leaf's spelling at the end.
#[tactic(auto, using(crate::proofs::Spelled::four_bytes))]
fn encode_leaf(leaf: &Leaf, out: &mut Bytes) -> Result<(), AllocError>
    ensures { OnOk result (out.new ≡ out.old ++ spell_leaf leaf.now) }
{
    match leaf {
        Leaf::Blind(hash) => {
            out.push(0)?;
            encode_hash(hash, out)
        }
        Leaf::Plain { salt, bytes } => {
            out.push(1)?;
            encode_hash(salt, out)?;
            encode_u32((bytes.len() % 4_294_967_296) as u32, out)?;
            out.extend(bytes.as_slice())
        }
    }
}

// Puts the spelling of vertices at the end, their count first.
#[cycle(vertices)]
#[tactic(auto, using(crate::proofs::Spelled::two_bytes))]
fn encode_vertices(vertices: &VertexList, out: &mut Bytes) -> Result<(), AllocError>
    ensures { OnOk result (out.new ≡ out.old ++ spell_vertices vertices.now) }
{
    out.extend(&((vertices.len() % 65536) as u16).to_be_bytes())?;
    for vertex in vertices.as_slice() {
        encode_vertex(vertex, out)?;
    }
    Ok(())
}

#[cycle(vertices)]
fn encode_vertex(vertex: &Vertex, out: &mut Bytes) -> Result<(), AllocError>
    ensures { OnOk result (out.new ≡ out.old ++ spell_vertex vertex.now) }
{
    match vertex {
        Vertex::Blind(hash) => {
            out.push(0)?;
            encode_hash(hash, out)
        }
        Vertex::Inner {
            informees,
            contents,
            subviews,
        } => {
            out.push(1)?;
            encode_leaf(informees, out)?;
            encode_leaf(contents, out)?;
            encode_vertices(subviews, out)
        }
    }
}

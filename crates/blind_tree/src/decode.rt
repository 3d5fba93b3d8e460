//! Reading trees from bytes.
ghost use Rattle.std.specs.Prelude.{◌≡◌, [], Ok, IfOk};
ghost use Rattle.ledger_terms.specs.Answers.{UnlessMemory};
ghost use Rattle.wire_form.specs.Formats.{Gives, any_item, items_at, one_more};
ghost use Rattle.wire_form.specs.declared.wire_fault.WireFault.TheVariants as WireFault;
ghost use Rattle.blind_tree.specs.declared.tree.Tree.{Tree};
ghost use Rattle.blind_tree.specs.InRange.{IsTree};
ghost use Rattle.blind_tree.specs.Spelling.{spell_tree};
ghost use Rattle.blind_tree.specs.Reading.{reader_answer, leaf_at, long_bytes_at, most_beside, read_all};
ghost use Rattle.blind_tree.specs.Reading.{tagged_leaf_at, tagged_vertex_at, tree_at, vertex_at, vertices_at};

use crate::leaf::Leaf;
use crate::tree::Tree;
use crate::vertex::{Vertex, VertexList};
use ledger_terms::limits::{MOST_ACTION_DEPTH, MOST_ACTIONS};
use ledger_terms::{Bytes, ListOf};
use std::alloc::Global;
use wire_form::{Reader, ReaderFault, WireFault};

/// The greatest number of levels on which vertices stand.
pub(crate) const LEVELS_MAX: u8 = MOST_ACTION_DEPTH as u8;

/// The greatest number of vertices side by side.
pub(crate) const VERTICES_MAX: u16 = MOST_ACTIONS as u16;

/// The tree that the bytes spell, all of them. Err names the first byte of the first field that can't be read, or want of memory: the count that
/// announces a vertex on a seventeenth level is such a field, and so are bytes after the tree.
pub fn decode_tree(alloc: Global, bytes: &[u8]) -> Result<Tree, WireFault>
    ensures exact { UnlessMemory WireFault.Memory result (read_all tree_at bytes.now) }
    ensures found { IfOk result (λ tree. IsTree tree × (bytes.now ≡ spell_tree tree)) }
    ensures only { (tree : Tree) → IsTree tree → bytes.now ≡ spell_tree tree → UnlessMemory WireFault.Memory result (Ok tree) }
{
    let mut reader = Reader::new(bytes);
    let read = read_tree(&mut reader, alloc);
    finish(read, bytes.len(), reader.len())
}

// What a reader of `len` bytes gave, with `left` bytes left after it: nothing may be left.
pub(crate) fn finish<T: Drop>(
    read: Result<T, ReaderFault>,
    len: usize,
    left: usize,
) -> Result<T, WireFault>
    ensures { result ≡ reader_answer read len left }
{
    let value = match read {
        Ok(value) => value,
        Err(ReaderFault::Left(at)) => {
            return Err(WireFault::Bad {
                at: len.saturating_sub(at),
            });
        }
        Err(ReaderFault::Memory) => return Err(WireFault::Memory),
    };
    if left == 0 {
        Ok(value)
    } else {
        Err(WireFault::Bad {
            at: len.saturating_sub(left),
        })
    }
}

#[tactic(auto, unfolding(crate::specs::Reading::tree_at))]
fn read_tree(reader: &mut Reader<'_>, alloc: Global) -> Result<Tree, ReaderFault>
    ensures { Gives (λ x. (x, reader.new)) result (tree_at reader.old) }
{
    let common = read_leaf(reader, alloc)?;
    let requesters = read_leaf(reader, alloc)?;
    let views = read_vertices(reader, alloc, LEVELS_MAX)?;
    Ok(Tree {
        common,
        requesters,
        views,
    })
}

#[tactic(auto, unfolding(crate::specs::Reading::leaf_at))]
fn read_leaf(reader: &mut Reader<'_>, alloc: Global) -> Result<Leaf, ReaderFault>
    ensures { Gives (λ x. (x, reader.new)) result (leaf_at reader.old) }
{
    let here = reader.len();
    let tag = reader.byte()?;
    read_tagged_leaf(reader, alloc, tag, here)
}

#[tactic(auto, unfolding(crate::specs::Reading::tagged_leaf_at))]
fn read_tagged_leaf(
    reader: &mut Reader<'_>,
    alloc: Global,
    tag: u8,
    here: usize,
) -> Result<Leaf, ReaderFault>
    ensures { Gives (λ x. (x, reader.new)) result (tagged_leaf_at tag reader.old here) }
{
    match tag {
        0 => Ok(Leaf::Blind(reader.hash()?)),
        1 => {
            let salt = reader.hash()?;
            let bytes = read_bytes(reader, alloc)?;
            Ok(Leaf::Plain { salt, bytes })
        }
        _ => Err(ReaderFault::Left(here)),
    }
}

// Bytes behind their length.
#[tactic(auto, unfolding(crate::specs::Reading::long_bytes_at))]
fn read_bytes(reader: &mut Reader<'_>, alloc: Global) -> Result<Bytes, ReaderFault>
    ensures { Gives (λ x. (x, reader.new)) result (long_bytes_at reader.old) }
{
    let len = reader.u32()?;
    let front = reader.bytes(len as usize)?;
    let mut bytes = Bytes::with_room(alloc, front.len())?;
    bytes.extend(front)?;
    Ok(bytes)
}

// How many vertices may stand side by side, where so many levels are left.
fn most_beside(levels: u8) -> u16
    ensures { result ≡ most_beside levels }
{
    if levels == 0 { 0 } else { VERTICES_MAX }
}

// Vertices side by side, on so many levels at most.
#[cycle(vertices)]
#[tactic(auto, unfolding(crate::specs::Reading::vertices_at))]
fn read_vertices(
    reader: &mut Reader<'_>,
    alloc: Global,
    levels: u8,
) -> Result<VertexList, ReaderFault>
    ensures { Gives (λ x. (x, reader.new)) result (vertices_at levels reader.old) }
{
    let count = reader.count(most_beside(levels))?;
    let vertices = read_more(reader, alloc, levels, count)?;
    Ok(VertexList::of(vertices.into_vec()))
}

#[cycle(vertices)]
fn read_more(
    reader: &mut Reader<'_>,
    alloc: Global,
    levels: u8,
    count: u16,
) -> Result<ListOf<Vertex>, ReaderFault>
    ensures { Gives (λ x. (x, reader.new)) result (items_at any_item (vertex_at levels) count [] reader.old) }
{
    let mut vertices = ListOf::new(alloc);
    for _ in 0..count {
        read_next(reader, alloc, levels, &mut vertices)?;
    }
    Ok(vertices)
}

// Puts the next vertex at the end of those before it.
#[cycle(vertices)]
fn read_next(
    reader: &mut Reader<'_>,
    alloc: Global,
    levels: u8,
    vertices: &mut ListOf<Vertex>,
) -> Result<(), ReaderFault>
    ensures { Gives (λ x. (vertices.new, reader.new)) result (one_more any_item (vertex_at levels) vertices.old reader.old) }
{
    let vertex = read_vertex(reader, alloc, levels)?;
    vertices.push(vertex)?;
    Ok(())
}

#[cycle(vertices)]
#[tactic(auto, unfolding(crate::specs::Reading::vertex_at))]
fn read_vertex(reader: &mut Reader<'_>, alloc: Global, levels: u8) -> Result<Vertex, ReaderFault>
    ensures { Gives (λ x. (x, reader.new)) result (vertex_at levels reader.old) }
{
    let here = reader.len();
    if levels == 0 {
        return Err(ReaderFault::Left(here));
    }
    let tag = reader.byte()?;
    read_tagged_vertex(reader, alloc, levels - 1, tag, here)
}

#[cycle(vertices)]
#[tactic(auto, unfolding(crate::specs::Reading::tagged_vertex_at, crate::specs::Reading::vertices_at))]
fn read_tagged_vertex(
    reader: &mut Reader<'_>,
    alloc: Global,
    levels: u8,
    tag: u8,
    here: usize,
) -> Result<Vertex, ReaderFault>
    ensures { Gives (λ x. (x, reader.new)) result (tagged_vertex_at (vertices_at levels) tag reader.old here) }
{
    match tag {
        0 => Ok(Vertex::Blind(reader.hash()?)),
        1 => {
            let informees = read_leaf(reader, alloc)?;
            let contents = read_leaf(reader, alloc)?;
            let subviews = read_vertices(reader, alloc, levels)?;
            Ok(Vertex::Inner {
                informees,
                contents,
                subviews,
            })
        }
        _ => Err(ReaderFault::Left(here)),
    }
}

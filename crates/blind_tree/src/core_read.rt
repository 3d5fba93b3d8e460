//! Reading cores from bytes.
ghost use Rattle.std.specs.Prelude.{[]};
ghost use Rattle.ledger_terms.specs.Answers.{Follows};
ghost use Rattle.wire_form.specs.Formats.{Gives, any_item, items_at, one_more};
ghost use Rattle.wire_form.specs.declared.wire_fault.WireFault.TheVariants as WireFault;
ghost use Rattle.blind_tree.specs.CoreReading.{child_at, children_at, core_at, hole_at, node_at, tagged_child_at};
ghost use Rattle.blind_tree.specs.Opening.{read_leaf};

use crate::decode::finish;
use crate::leaf::Leaf;
use ledger_terms::ListOf;
use std::alloc::Global;
use view_split::{CoreChild, CoreChildList, CoreNode};
use wire_form::{Reader, ReaderFault, WireFault};

/// How many levels of actions may stand below the first of a core. No transaction has more than 16 levels, and what is
/// read of anybody's bytes never nests deeper, so that reading and dropping it takes a bounded stack.
pub(crate) const LEVELS_BELOW: u8 = 15;

/// The greatest number of an action's children.
pub(crate) const CHILDREN_MAX: u16 = 63;

/// The core of a contents leaf.
pub(crate) fn read_core(alloc: Global, leaf: &Leaf) -> Result<CoreNode, WireFault>
    ensures { Follows WireFault.Memory result (read_leaf core_at leaf.now) }
{
    match leaf {
        Leaf::Blind(_) => Err(WireFault::Bad { at: 0 }),
        Leaf::Plain { bytes, .. } => {
            let mut reader = Reader::new(bytes.as_slice());
            let read = read_first(&mut reader, alloc);
            finish(read, bytes.len(), reader.len())
        }
    }
}

#[tactic(auto, unfolding(crate::specs::CoreReading::core_at))]
fn read_first(reader: &mut Reader<'_>, alloc: Global) -> Result<CoreNode, ReaderFault>
    ensures { Gives (λ x. (x, reader.new)) result (core_at reader.old) }
{
    read_node(reader, alloc, LEVELS_BELOW)
}

// An action with what stands below it, on so many levels at most.
#[cycle(cores)]
#[tactic(auto, unfolding(crate::specs::CoreReading::node_at, crate::specs::CoreReading::children_at))]
fn read_node(reader: &mut Reader<'_>, alloc: Global, levels: u8) -> Result<CoreNode, ReaderFault>
    ensures { Gives (λ x. (x, reader.new)) result (node_at levels reader.old) }
{
    let seed = reader.hash()?;
    let action = reader.action(alloc)?;
    let children = read_children(reader, alloc, levels)?;
    Ok(CoreNode {
        seed,
        action,
        children,
    })
}

#[cycle(cores)]
#[tactic(auto, unfolding(crate::specs::CoreReading::children_at))]
fn read_children(
    reader: &mut Reader<'_>,
    alloc: Global,
    levels: u8,
) -> Result<CoreChildList, ReaderFault>
    ensures { Gives (λ x. (x, reader.new)) result (children_at levels reader.old) }
{
    let count = reader.count(CHILDREN_MAX)?;
    let children = read_counted(reader, alloc, levels, count)?;
    Ok(CoreChildList::of(children.into_vec()))
}

#[cycle(cores)]
fn read_counted(
    reader: &mut Reader<'_>,
    alloc: Global,
    levels: u8,
    count: u16,
) -> Result<ListOf<CoreChild>, ReaderFault>
    ensures { Gives (λ x. (x, reader.new)) result (items_at any_item (child_at levels) count [] reader.old) }
{
    let mut children = ListOf::new(alloc);
    for _ in 0..count {
        read_next(reader, alloc, levels, &mut children)?;
    }
    Ok(children)
}

// Puts the next child at the end of those before it.
#[cycle(cores)]
fn read_next(
    reader: &mut Reader<'_>,
    alloc: Global,
    levels: u8,
    children: &mut ListOf<CoreChild>,
) -> Result<(), ReaderFault>
    ensures { Gives (λ x. (children.new, reader.new)) result (one_more any_item (child_at levels) children.old reader.old) }
{
    let child = read_child(reader, alloc, levels)?;
    children.push(child)?;
    Ok(())
}

#[cycle(cores)]
fn read_child(reader: &mut Reader<'_>, alloc: Global, levels: u8) -> Result<CoreChild, ReaderFault>
    ensures { Gives (λ x. (x, reader.new)) result (child_at levels reader.old) }
{
    if levels == 0 {
        return read_hole(reader);
    }
    let here = reader.len();
    let tag = reader.byte()?;
    read_tagged_child(reader, alloc, levels - 1, tag, here)
}

#[tactic(auto, unfolding(crate::specs::CoreReading::hole_at, crate::specs::CoreReading::tagged_hole_at))]
fn read_hole(reader: &mut Reader<'_>) -> Result<CoreChild, ReaderFault>
    ensures { Gives (λ x. (x, reader.new)) result (hole_at reader.old) }
{
    let here = reader.len();
    match reader.byte()? {
        1 => Ok(CoreChild::Hole),
        _ => Err(ReaderFault::Left(here)),
    }
}

#[cycle(cores)]
#[tactic(auto, unfolding(crate::specs::CoreReading::tagged_child_at, crate::specs::CoreReading::node_at))]
fn read_tagged_child(
    reader: &mut Reader<'_>,
    alloc: Global,
    levels: u8,
    tag: u8,
    here: usize,
) -> Result<CoreChild, ReaderFault>
    ensures { Gives (λ x. (x, reader.new)) result (tagged_child_at (node_at levels) tag reader.old here) }
{
    match tag {
        0 => Ok(CoreChild::Inner(read_node(reader, alloc, levels)?)),
        1 => Ok(CoreChild::Hole),
        _ => Err(ReaderFault::Left(here)),
    }
}

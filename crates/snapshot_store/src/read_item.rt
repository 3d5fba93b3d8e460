//! Reading items.
ghost use Rattle.std.specs.Prelude.{[]};
ghost use Rattle.wire_form.specs.Formats.{Gives, any_item, items_at, one_more};
ghost use Rattle.message_bytes.specs.Reading.{path_at};
ghost use Rattle.snapshot_store.specs.Reading.{envelope_at, item_at, items_listed_at, long_bytes_at, paths_at};
ghost use Rattle.snapshot_store.specs.Reading.{request_at, tagged_envelope_at, tagged_what_at, what_at};

use canton_model::SharedBytes;
use ledger_terms::{Bytes, ParticipantId, PathList};
use message_bytes::{read_path, read_verdict};
use node_state::{Item, ItemList, ItemWhat};
use std::alloc::Global;
use wire_form::{Reader, ReaderFault};

#[tactic(auto, unfolding(crate::specs::Reading::paths_at))]
fn read_paths(reader: &mut Reader<'_>, alloc: Global) -> Result<PathList, ReaderFault>
    ensures { Gives (λ x. (x, reader.new)) result (paths_at reader.old) }
{
    let count = reader.count(u16::MAX)?;
    read_more_paths(reader, alloc, count)
}

fn read_more_paths(
    reader: &mut Reader<'_>,
    alloc: Global,
    count: u16,
) -> Result<PathList, ReaderFault>
    ensures { Gives (λ x. (x, reader.new)) result (items_at any_item path_at count [] reader.old) }
{
    let mut paths = PathList::new(alloc);
    for _ in 0..count {
        read_next_path(reader, alloc, &mut paths)?;
    }
    Ok(paths)
}

fn read_next_path(
    reader: &mut Reader<'_>,
    alloc: Global,
    paths: &mut PathList,
) -> Result<(), ReaderFault>
    ensures { Gives (λ x. (paths.new, reader.new)) result (one_more any_item path_at paths.old reader.old) }
{
    let path = read_path(reader, alloc)?;
    paths.push(path)?;
    Ok(())
}

// Bytes behind their length.
#[tactic(auto, unfolding(crate::specs::Reading::long_bytes_at))]
fn read_bytes(reader: &mut Reader<'_>, alloc: Global) -> Result<Bytes, ReaderFault>
    ensures { Gives (λ x. (x, reader.new)) result (long_bytes_at reader.old) }
{
    let len = reader.u32()?;
    let front = reader.bytes(len as usize)?;
    let mut bytes = Bytes::with_room(alloc, front.len())?;
    bytes.extend(front)?;
    Ok(bytes)
}

#[tactic(auto, unfolding(crate::specs::Reading::envelope_at))]
fn read_envelope(reader: &mut Reader<'_>, alloc: Global) -> Result<Option<SharedBytes>, ReaderFault>
    ensures { Gives (λ x. (x, reader.new)) result (envelope_at reader.old) }
{
    let here = reader.len();
    let tag = reader.byte()?;
    read_tagged_envelope(reader, alloc, tag, here)
}

#[tactic(auto, unfolding(crate::specs::Reading::tagged_envelope_at))]
fn read_tagged_envelope(
    reader: &mut Reader<'_>,
    alloc: Global,
    tag: u8,
    here: usize,
) -> Result<Option<SharedBytes>, ReaderFault>
    ensures { Gives (λ x. (x, reader.new)) result (tagged_envelope_at tag reader.old here) }
{
    match tag {
        0 => Ok(None),
        1 => {
            let bytes = read_bytes(reader, alloc)?;
            Ok(Some(SharedBytes::new(alloc, bytes)?))
        }
        _ => Err(ReaderFault::Left(here)),
    }
}

#[tactic(auto, unfolding(crate::specs::Reading::request_at))]
fn read_request(reader: &mut Reader<'_>, alloc: Global) -> Result<ItemWhat, ReaderFault>
    ensures { Gives (λ x. (x, reader.new)) result (request_at reader.old) }
{
    let sender = ParticipantId(reader.byte()?);
    let command = reader.name()?;
    let root = reader.hash()?;
    let seen = read_paths(reader, alloc)?;
    let confirmed = read_paths(reader, alloc)?;
    let envelope = read_envelope(reader, alloc)?;
    Ok(ItemWhat::Request {
        sender,
        command,
        root,
        seen,
        confirmed,
        envelope,
    })
}

#[tactic(auto, unfolding(crate::specs::Reading::what_at))]
fn read_what(reader: &mut Reader<'_>, alloc: Global) -> Result<ItemWhat, ReaderFault>
    ensures { Gives (λ x. (x, reader.new)) result (what_at reader.old) }
{
    let here = reader.len();
    let tag = reader.byte()?;
    read_tagged_what(reader, alloc, tag, here)
}

#[tactic(auto, unfolding(crate::specs::Reading::tagged_what_at))]
fn read_tagged_what(
    reader: &mut Reader<'_>,
    alloc: Global,
    tag: u8,
    here: usize,
) -> Result<ItemWhat, ReaderFault>
    ensures { Gives (λ x. (x, reader.new)) result (tagged_what_at tag reader.old here) }
{
    match tag {
        0 => Ok(ItemWhat::Nothing),
        1 => read_request(reader, alloc),
        2 => Ok(ItemWhat::Verdict(read_verdict(reader, alloc, u8::MAX)?)),
        _ => Err(ReaderFault::Left(here)),
    }
}

#[tactic(auto, unfolding(crate::specs::Reading::item_at))]
fn read_item(reader: &mut Reader<'_>, alloc: Global) -> Result<Item, ReaderFault>
    ensures { Gives (λ x. (x, reader.new)) result (item_at reader.old) }
{
    let time = reader.u64()?;
    let what = read_what(reader, alloc)?;
    Ok(Item { time, what })
}

/// Reads a count in four bytes and so many items of an inbox. A fault says how many bytes are left where the first field begins that can't be read, or
/// that memory is wanting.
#[tactic(auto, unfolding(crate::specs::Reading::items_listed_at))]
pub fn read_items(reader: &mut Reader<'_>, alloc: Global) -> Result<ItemList, ReaderFault>
    ensures { Gives (λ x. (x, reader.new)) result (items_listed_at reader.old) }
{
    let count = reader.u32()?;
    read_more_items(reader, alloc, count)
}

fn read_more_items(
    reader: &mut Reader<'_>,
    alloc: Global,
    count: u32,
) -> Result<ItemList, ReaderFault>
    ensures { Gives (λ x. (x, reader.new)) result (items_at any_item item_at count [] reader.old) }
{
    let mut items = ItemList::new(alloc);
    for _ in 0..count {
        read_next_item(reader, alloc, &mut items)?;
    }
    Ok(items)
}

fn read_next_item(
    reader: &mut Reader<'_>,
    alloc: Global,
    items: &mut ItemList,
) -> Result<(), ReaderFault>
    ensures { Gives (λ x. (items.new, reader.new)) result (one_more any_item item_at items.old reader.old) }
{
    let item = read_item(reader, alloc)?;
    items.push(item)?;
    Ok(())
}

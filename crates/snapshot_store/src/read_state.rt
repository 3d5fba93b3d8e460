//! Reading states.
ghost use Rattle.std.specs.Prelude.{◌≡◌, []};
ghost use Rattle.std.specs.Int.{w64};
ghost use Rattle.ledger_terms.specs.Parties.{stands_above};
ghost use Rattle.wire_form.specs.Fields.{hash_at, number_at};
ghost use Rattle.wire_form.specs.Formats.{Gives, any_item, items_at, one_more};
ghost use Rattle.message_bytes.specs.Reading.{MOST_OF_BYTE, is_past, response_at};
ghost use Rattle.snapshot_store.specs.Reading.{head_at, ids_at, places_at, responses_at, row_at, rows_at, state_at, version_at};

use crate::known::known_with;
use crate::read_item::read_items;
use ledger_terms::{ActiveRow, ActiveRowList, Hash, HashList, ParticipantId, U64List};
use message_bytes::read_response;
use node_state::{NodeState, ResponseList};
use std::alloc::Global;
use wire_form::laws::what_is_read_is_spellable;
use wire_form::{Reader, ReaderFault};

// The first fields of a state.
#[derive(Clone, Copy)]
struct Head {
    me: ParticipantId,
    base: u64,
    base_time: u64,
    paused: bool,
}

/// Reads a state, and leaves what stands behind it to the reader. A fault says how many bytes are left where the first field begins that can't be read,
/// or that memory is wanting.
#[tactic(auto, unfolding(crate::specs::Reading::state_at))]
pub fn read_state(reader: &mut Reader<'_>, alloc: Global) -> Result<NodeState, ReaderFault>
    ensures { Gives (λ x. (x, reader.new)) result (state_at reader.old) }
{
    let head = read_head(reader)?;
    let active = read_rows(reader, alloc)?;
    let gone = read_ids(reader, alloc)?;
    let items = read_items(reader, alloc)?;
    let outbox = read_responses(reader, alloc)?;
    let done = read_places(reader, alloc)?;
    Ok(NodeState {
        me: head.me,
        base: head.base,
        base_time: head.base_time,
        paused: head.paused,
        active,
        gone,
        items,
        outbox,
        done,
    })
}

#[tactic(auto, unfolding(crate::specs::Reading::head_at))]
fn read_head(reader: &mut Reader<'_>) -> Result<Head, ReaderFault>
    ensures { Gives (λ x. (((((tt, x.me), x.base), x.base_time), x.paused), reader.new)) result (head_at reader.old) }
{
    read_version(reader)?;
    let me = ParticipantId(reader.byte()?);
    let base = reader.u64()?;
    let base_time = reader.u64()?;
    let paused = reader.truth()?;
    Ok(Head {
        me,
        base,
        base_time,
        paused,
    })
}

#[tactic(auto, unfolding(crate::specs::Reading::version_at))]
fn read_version(reader: &mut Reader<'_>) -> Result<(), ReaderFault>
    ensures { Gives (λ x. (x, reader.new)) result (version_at reader.old) }
{
    let here = reader.len();
    match reader.byte()? {
        1 => Ok(()),
        _ => Err(ReaderFault::Left(here)),
    }
}

#[tactic(auto, unfolding(crate::specs::Reading::row_at))]
fn read_row(reader: &mut Reader<'_>, alloc: Global) -> Result<ActiveRow, ReaderFault>
    ensures { Gives (λ x. (x, reader.new)) result (row_at reader.old) }
{
    let created_at = reader.u64()?;
    let salt = reader.hash()?;
    let instance = reader.instance(alloc)?;
    what_is_read_is_spellable();
    let known = known_with(alloc, salt, instance)?;
    Ok(ActiveRow { created_at, known })
}

#[tactic(auto, unfolding(crate::specs::Reading::rows_at))]
fn read_rows(reader: &mut Reader<'_>, alloc: Global) -> Result<ActiveRowList, ReaderFault>
    ensures { Gives (λ x. (x, reader.new)) result (rows_at reader.old) }
{
    let count = reader.u32()?;
    read_more_rows(reader, alloc, count)
}

fn read_more_rows(
    reader: &mut Reader<'_>,
    alloc: Global,
    count: u32,
) -> Result<ActiveRowList, ReaderFault>
    ensures { Gives (λ x. (x, reader.new)) result (items_at any_item row_at count [] reader.old) }
{
    let mut rows = ActiveRowList::new(alloc);
    for _ in 0..count {
        read_next_row(reader, alloc, &mut rows)?;
    }
    Ok(rows)
}

fn read_next_row(
    reader: &mut Reader<'_>,
    alloc: Global,
    rows: &mut ActiveRowList,
) -> Result<(), ReaderFault>
    ensures { Gives (λ x. (rows.new, reader.new)) result (one_more any_item row_at rows.old reader.old) }
{
    let row = read_row(reader, alloc)?;
    rows.push(row)?;
    Ok(())
}

#[tactic(auto, unfolding(crate::specs::Reading::ids_at))]
fn read_ids(reader: &mut Reader<'_>, alloc: Global) -> Result<HashList, ReaderFault>
    ensures { Gives (λ x. (x, reader.new)) result (ids_at reader.old) }
{
    let count = reader.u32()?;
    read_more_ids(reader, alloc, count)
}

fn read_more_ids(
    reader: &mut Reader<'_>,
    alloc: Global,
    count: u32,
) -> Result<HashList, ReaderFault>
    ensures { Gives (λ x. (x, reader.new)) result (items_at stands_above hash_at count [] reader.old) }
{
    let mut ids = HashList::new(alloc);
    for _ in 0..count {
        read_next_id(reader, &mut ids)?;
    }
    Ok(ids)
}

// Puts the next id at the end of those before it, where it stands above them.
fn read_next_id(reader: &mut Reader<'_>, ids: &mut HashList) -> Result<(), ReaderFault>
    ensures { Gives (λ x. (ids.new, reader.new)) result (one_more stands_above hash_at ids.old reader.old) }
{
    let here = reader.len();
    let id = reader.hash()?;
    if is_above(ids.as_slice(), id) {
        ids.push(id)?;
        Ok(())
    } else {
        Err(ReaderFault::Left(here))
    }
}

#[tactic(auto, using(ledger_terms::proofs::Rising::above_last))]
fn is_above(ids: &[Hash], id: Hash) -> bool
    ensures { result ≡ stands_above ids.now id }
{
    match ids.last() {
        Some(last) => last.as_bytes().cmp(id.as_bytes()).is_lt(),
        None => true,
    }
}

#[tactic(auto, unfolding(crate::specs::Reading::responses_at))]
fn read_responses(reader: &mut Reader<'_>, alloc: Global) -> Result<ResponseList, ReaderFault>
    ensures { Gives (λ x. (x, reader.new)) result (responses_at reader.old) }
{
    let count = reader.u32()?;
    read_more_responses(reader, alloc, count)
}

fn read_more_responses(
    reader: &mut Reader<'_>,
    alloc: Global,
    count: u32,
) -> Result<ResponseList, ReaderFault>
    ensures { Gives (λ x. (x, reader.new)) result (items_at any_item (response_at MOST_OF_BYTE) count [] reader.old) }
{
    let mut responses = ResponseList::new(alloc);
    for _ in 0..count {
        read_next_response(reader, alloc, &mut responses)?;
    }
    Ok(responses)
}

fn read_next_response(
    reader: &mut Reader<'_>,
    alloc: Global,
    responses: &mut ResponseList,
) -> Result<(), ReaderFault>
    ensures { Gives (λ x. (responses.new, reader.new)) result (one_more any_item (response_at MOST_OF_BYTE) responses.old reader.old) }
{
    let response = read_response(reader, alloc, u8::MAX)?;
    responses.push(response)?;
    Ok(())
}

#[tactic(auto, unfolding(crate::specs::Reading::places_at))]
fn read_places(reader: &mut Reader<'_>, alloc: Global) -> Result<U64List, ReaderFault>
    ensures { Gives (λ x. (x, reader.new)) result (places_at reader.old) }
{
    let count = reader.u32()?;
    read_more_places(reader, alloc, count)
}

fn read_more_places(
    reader: &mut Reader<'_>,
    alloc: Global,
    count: u32,
) -> Result<U64List, ReaderFault>
    ensures { Gives (λ x. (x, reader.new)) result (items_at is_past (number_at w64) count [] reader.old) }
{
    let mut places = U64List::new(alloc);
    for _ in 0..count {
        read_next_place(reader, &mut places)?;
    }
    Ok(places)
}

// Puts the next place at the end of those before it, where it stands above them.
fn read_next_place(reader: &mut Reader<'_>, places: &mut U64List) -> Result<(), ReaderFault>
    ensures { Gives (λ x. (places.new, reader.new)) result (one_more is_past (number_at w64) places.old reader.old) }
{
    let here = reader.len();
    let place = reader.u64()?;
    if is_past(places.as_slice(), place) {
        places.push(place)?;
        Ok(())
    } else {
        Err(ReaderFault::Left(here))
    }
}

#[tactic(auto, using(message_bytes::proofs::Rising::past_last))]
fn is_past(before: &[u64], place: u64) -> bool
    ensures { result ≡ is_past before.now place }
{
    match before.last() {
        None => true,
        Some(last) => *last < place,
    }
}

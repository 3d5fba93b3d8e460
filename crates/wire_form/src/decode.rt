//! Reading spellings at a place in bytes, an index from 0. What stands behind a spelling isn't looked at; `next` of the answer is the place after it.
//! A fault names the first byte of the first field that can't be read: a tag, a number, a hash, a name with its byte of length, or the bytes that a
//! length announces; a name that doesn't ascend in its set is such a field.
ghost use Rattle.std.specs.Prelude.{◌≤◌, length};
ghost use Rattle.wire_form.specs.Reading.{action_at, instance_at, set_at, value_at};
ghost use Rattle.wire_form.specs.Spelling.{spell_action, spell_instance, spell_parties, spell_value};
ghost use Rattle.wire_form.specs.InRange.{IsAction, IsInRange, IsInstance, IsPartySet};
ghost use Rattle.wire_form.specs.Placed.{FindsAll, IsFound, IsRead};

use crate::decoded::{Decoded, placed};
use crate::reader::Reader;
use crate::wire_fault::WireFault;
use ledger_terms::{Action, Instance, PartySet, Value};
use std::alloc::Global;

/// Reads the value whose spelling begins at place `at` of the bytes, and gives it with the place after it. Err names the place where the first field
/// begins that can't be read, or want of memory.
pub fn decode_value(alloc: Global, bytes: &[u8], at: usize) -> Result<Decoded<Value>, WireFault>
    requires { at ≤ length bytes.now }
    ensures exact { IsRead value_at bytes.now at result }
    ensures found { IsFound spell_value IsInRange bytes.now at result }
    ensures only { FindsAll spell_value IsInRange bytes.now at result }
{
    let mut reader = Reader::new(&bytes[at..]);
    let read = reader.value(alloc);
    placed(bytes.len(), reader.len(), read)
}

/// Reads the set of at most 128 parties whose spelling begins at place `at` of the bytes, and gives it with the place after it. Err names the place
/// where the first field begins that can't be read, or want of memory.
pub fn decode_parties(
    alloc: Global,
    bytes: &[u8],
    at: usize,
) -> Result<Decoded<PartySet>, WireFault>
    requires { at ≤ length bytes.now }
    ensures exact { IsRead set_at bytes.now at result }
    ensures found { IsFound spell_parties IsPartySet bytes.now at result }
    ensures only { FindsAll spell_parties IsPartySet bytes.now at result }
{
    let mut reader = Reader::new(&bytes[at..]);
    let read = reader.parties(alloc);
    placed(bytes.len(), reader.len(), read)
}

/// Reads the instance whose spelling begins at place `at` of the bytes, and gives it with the place after it. Err names the place where the first field
/// begins that can't be read, or want of memory.
pub fn decode_instance(
    alloc: Global,
    bytes: &[u8],
    at: usize,
) -> Result<Decoded<Instance>, WireFault>
    requires { at ≤ length bytes.now }
    ensures exact { IsRead instance_at bytes.now at result }
    ensures found { IsFound spell_instance IsInstance bytes.now at result }
    ensures only { FindsAll spell_instance IsInstance bytes.now at result }
{
    let mut reader = Reader::new(&bytes[at..]);
    let read = reader.instance(alloc);
    placed(bytes.len(), reader.len(), read)
}

/// Reads the action whose spelling begins at place `at` of the bytes, and gives it with the place after it. Err names the place where the first field
/// begins that can't be read, or want of memory.
pub fn decode_action(alloc: Global, bytes: &[u8], at: usize) -> Result<Decoded<Action>, WireFault>
    requires { at ≤ length bytes.now }
    ensures exact { IsRead action_at bytes.now at result }
    ensures found { IsFound spell_action IsAction bytes.now at result }
    ensures only { FindsAll spell_action IsAction bytes.now at result }
{
    let mut reader = Reader::new(&bytes[at..]);
    let read = reader.action(alloc);
    placed(bytes.len(), reader.len(), read)
}

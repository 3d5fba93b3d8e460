//! A round trip of actions.
ghost use Rattle.std.specs.Prelude.{◌<◌, length};

use crate::answer::Answer;
use crate::words::Words;
use ledger_terms::{Action, Bytes, ListOf};
use std::alloc::Global;
use wire_form::{decode_action, encode_action, is_spellable_action};

/// Encodes the two actions that the words spell by turns, so many in all, decodes them and encodes them again. Puts at the end how many
/// bytes they took, how many were decoded, and whether these have the same bytes again.
pub(crate) fn put_round_trip(alloc: Global, count: u64, mut words: Words<'_>, out: &mut Answer) {
    let mut actions = ListOf::new(alloc);
    put_action(alloc, words.next(), &mut actions, out);
    put_action(alloc, words.next(), &mut actions, out);
    let mut first = Bytes::new(alloc);
    encode_each(&actions, count, &mut first, out);
    let mut second = Bytes::new(alloc);
    let decoded = encode_again(alloc, first.as_slice(), &mut second, out);
    out.number(first.len() as u64);
    out.put(" bytes, ");
    out.number(decoded);
    out.put(" actions, ");
    out.put(if first == second { "the same" } else { "other" });
    out.put(" bytes again\n");
}

/// Puts the action that digits spell at the end.
fn put_action(alloc: Global, digits: &str, actions: &mut ListOf<Action>, out: &mut Answer) {
    let Ok(bytes) = hex::decode(alloc, digits) else {
        return out.lack();
    };
    match decode_action(alloc, bytes.as_slice(), 0) {
        Ok(read) => out.keep(actions.push(read.value)),
        Err(_) => out.lack(),
    }
}

/// Encodes actions by turns, so many in all.
fn encode_each(actions: &ListOf<Action>, count: u64, bytes: &mut Bytes, out: &mut Answer) {
    for i in 0..count {
        if let Some(action) = actions.get((i % 2) as usize) {
            put_encoded(action, bytes, out);
        }
    }
}

fn put_encoded(action: &Action, bytes: &mut Bytes, out: &mut Answer) {
    if is_spellable_action(action) {
        out.keep(encode_action(action, bytes));
    }
}

/// Decodes the actions that bytes spell and encodes each. The result is how many there are.
fn encode_again(alloc: Global, bytes: &[u8], again: &mut Bytes, out: &mut Answer) -> u64 {
    let mut actions = 0u64;
    let mut at = 0;
    for _ in 0..bytes.len() {
        if at >= bytes.len() {
            break;
        }
        at = encode_at(alloc, bytes, at, again, out);
        actions = actions.saturating_add(1);
    }
    actions
}

/// Decodes the action that bytes spell from a place on, and encodes it. The result is the place after it, or the end of the bytes where they spell
/// none.
fn encode_at(alloc: Global, bytes: &[u8], at: usize, again: &mut Bytes, out: &mut Answer) -> usize
    requires { at < length bytes.now }
{
    match decode_action(alloc, bytes, at) {
        Ok(read) => {
            put_encoded(&read.value, again, out);
            read.next
        }
        Err(_) => bytes.len(),
    }
}

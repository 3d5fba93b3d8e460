//! Actions as bytes.
use crate::answer::Answer;
use crate::form::case::put_fault;
use ledger_terms::{Action, Bytes};
use std::alloc::Global;
use wire_form::{Decoded, action_len, decode_action, encode_action, is_spellable_action};

/// Puts what is read of the bytes of an action at the end.
pub(crate) fn put_action(alloc: Global, bytes: &[u8], out: &mut Answer) {
    match decode_action(alloc, bytes, 0) {
        Ok(read) => put_read(alloc, &read, out),
        Err(fault) => put_fault(&fault, out),
    }
    out.put("\n");
}

fn put_read(alloc: Global, read: &Decoded<Action>, out: &mut Answer) {
    out.action(&read.value);
    out.put(" next ");
    out.number(read.next as u64);
    put_spelled(alloc, &read.value, out);
}

/// Puts the length that an action is said to have at the end, and its bytes.
fn put_spelled(alloc: Global, action: &Action, out: &mut Answer) {
    if !is_spellable_action(action) {
        return out.put(" has no spelling");
    }
    let mut bytes = Bytes::new(alloc);
    out.keep(encode_action(action, &mut bytes));
    out.put(" length ");
    out.number(action_len(action) as u64);
    out.put(" spelled ");
    out.digits(bytes.as_slice());
}

//! Cases.
use crate::answer::Answer;
use crate::form::actions::put_action;
use crate::form::commitments::{put_calls, put_difference};
use crate::form::openings::put_opening;
use crate::form::states::put_state;
use crate::form::trees::put_tree;
use crate::words::Words;
use std::alloc::Global;
use wire_form::WireFault;

/// Puts what answers a line at the end.
pub(crate) fn put_answer(alloc: Global, line: &str, out: &mut Answer) {
    let mut words = Words::of(line);
    let word = words.next();
    match word {
        "opened-for" => put_opening(alloc, words, out),
        "commitments" => put_calls(alloc, words, out),
        "difference" => put_difference(alloc, words, out),
        _ => put_bytes(alloc, line, word, words, out),
    }
}

fn put_bytes(alloc: Global, line: &str, word: &str, words: Words<'_>, out: &mut Answer) {
    match hex::decode(alloc, words.rest()) {
        Ok(bytes) => put_read(alloc, word, bytes.as_slice(), out),
        Err(_) => out.line(&[line]),
    }
}

fn put_read(alloc: Global, word: &str, bytes: &[u8], out: &mut Answer) {
    match word {
        "action" => put_action(alloc, bytes, out),
        "tree" => put_tree(alloc, bytes, out),
        "state" => put_state(alloc, bytes, out),
        _ => out.line(&["no such word"]),
    }
}

/// Puts the place of a fault at the end of a line.
pub(crate) fn put_fault(fault: &WireFault, out: &mut Answer) {
    match fault {
        WireFault::Bad { at } => {
            out.put("bad at ");
            out.number(*at as u64);
        }
        WireFault::Memory => out.lack(),
    }
}

//! Reading a script.
use crate::answer::Answer;
use script_read::{Script, read_script};
use serde_json::Value;
use std::alloc::Global;

/// Reads a text so often as a script. Puts at the end how many bytes and submissions it has, or the word of its fault.
pub(crate) fn put_script(alloc: Global, count: u64, text: &str, out: &mut Answer) {
    let mut found = Err("nothing");
    for _ in 0..count {
        found = submissions_in(alloc, text);
    }
    put_length(text, out);
    match found {
        Ok(submissions) => {
            out.number(submissions);
            out.put(" submissions\n");
        }
        Err(word) => out.line(&[word]),
    }
}

fn put_length(text: &str, out: &mut Answer) {
    out.number(text.len() as u64);
    out.put(" bytes, ");
}

/// How many submissions a text has as a script, or the word of its fault.
fn submissions_in(alloc: Global, text: &str) -> Result<u64, &'static str> {
    match read_script(alloc, text.as_bytes()) {
        Ok(script) => Ok(submissions_of(&script)),
        Err(fault) => Err(fault.name()),
    }
}

fn submissions_of(script: &Script) -> u64 {
    let mut submissions = 0u64;
    for round in script.rounds.as_slice() {
        submissions = submissions.saturating_add(round.submits.len() as u64);
    }
    submissions
}

/// Reads a text so often as a JSON value. Puts at the end how many bytes it has, and whether it is one.
pub(crate) fn put_json(alloc: Global, count: u64, text: &str, out: &mut Answer) {
    let mut is_value = false;
    for _ in 0..count {
        is_value = is_json(alloc, text);
    }
    put_length(text, out);
    out.put(if is_value { "a value\n" } else { "NotJson\n" });
}

fn is_json(alloc: Global, text: &str) -> bool {
    match Value::from_slice(alloc, text.as_bytes()) {
        Ok(_) => true,
        Err(_) => false,
    }
}

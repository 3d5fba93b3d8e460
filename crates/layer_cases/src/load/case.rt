//! Cases.
use crate::answer::Answer;
use crate::load::jobs::put_job;
use crate::load::participants::{put_packages, put_topology};
use crate::load::rounds::put_round;
use crate::words::Words;
use load_gen::generate;
use script_read::Script;
use std::alloc::Global;

/// Puts a line and the text that answers it at the end.
pub(crate) fn put_answer(alloc: Global, line: &str, out: &mut Answer) {
    out.line(&[line]);
    if let Some(words) = line.strip_prefix("words") {
        put_job(alloc, words, out);
    } else if let Some(numbers) = line.strip_prefix("gen ") {
        put_generated(alloc, Words::of(numbers), out);
    }
}

/// Puts the script of a count and a seed at the end.
fn put_generated(alloc: Global, mut numbers: Words<'_>, out: &mut Answer) {
    let count = numbers.number() % 4_294_967_296;
    match generate(alloc, count as u32, numbers.number()) {
        Ok(script) => put_script(&script, out),
        Err(_) => out.lack(),
    }
}

fn put_script(script: &Script, out: &mut Answer) {
    put_topology(&script.topology, out);
    put_packages(script.checked.as_slice(), out);
    for round in script.rounds.as_slice() {
        put_round(&script.topology, round, out);
    }
}

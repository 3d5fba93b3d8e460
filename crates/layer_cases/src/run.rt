//! Cases of whole runs, with their words between commas and then the bytes of the source, as text or as hexadecimal digits behind `0x`:
//! - `run NAME TAKE PUT WORDS SOURCE` runs over a source and a sink that move 16 bytes a call and fail at these calls, 0 for none. The
//!   answer is the status, the line for it, and what the sink was given, each of its lines behind a bar.
//! - `surely NAME ROOM WORDS SOURCE`: the source never fails, and the sink has room for so many bytes.
//! - `count NAME PATTERNS WORDS SOURCE`: the answer has, in place of what was written, how many of its lines fit each of the patterns, as
//!   `patterns.rt` spells them.
//! - `gate NAME LOOKS WORDS SOURCE`: the answer has what a gate noted that holds who comes first for so many looks.
//! - `native NAME TEXT WORDS SOURCE`: the answer says in the end whether a native of Flash's `own` or of `another` text was asked.
//! - `cut NAME SOURCE`: the answer has of how many beginnings of the source it is said that they aren't JSON.
//!
//! And of what runs stand on: `append`, `mem-source`, `sure-source`, `reader`, `mem-sink`, `sure-sink` and `writer`, as `appending.rt`,
//! `reading.rt` and `writing.rt` spell them. A line that begins otherwise is written again.

mod appending;
mod case;
mod counting_native;
mod cutting;
mod failing_case;
mod halting_reader;
mod halting_writer;
mod inputs;
mod natives;
mod noting_gate;
mod patterns;
mod reading;
mod runs;
mod surely;
mod told;
mod writing;

use crate::answer::Answer;
use appending::append_answer;
use cutting::cut_answer;
use reading::{mem_source_answer, reader_answer, sure_source_answer};
use runs::{count_answer, gate_answer, native_answer, run_answer, sure_answer};
use std::alloc::{AllocError, AllocGlobal, Global};
use std::random::RandomSource;
use std::sync::Wait;
use std::thread::Threads;
use writing::{mem_sink_answer, sure_sink_answer, writer_answer};

/// Puts what answers a line at the end.
pub(crate) fn put_answer<R: Threads + Wait + Sync + RandomSource + AllocGlobal>(
    rt: &R,
    line: &str,
    out: &mut Answer,
) {
    match answer(rt, rt.alloc(), line) {
        Ok(Some(told)) => out.put(told.as_str()),
        Ok(None) => out.line(&[line]),
        Err(_) => out.lack(),
    }
}

/// The answer to a line that is a case.
fn answer<R: Threads + Wait + Sync + RandomSource + AllocGlobal>(
    rt: &R,
    alloc: Global,
    line: &str,
) -> Result<Option<String>, AllocError> {
    let (word, spelled) = line.split_once(' ').unwrap_or((line, ""));
    match word {
        "run" => run_answer(rt, alloc, spelled),
        "surely" => sure_answer(rt, alloc, spelled),
        "count" => count_answer(rt, alloc, spelled),
        "gate" => gate_answer(rt, alloc, spelled),
        "native" => native_answer(rt, alloc, spelled),
        "cut" => cut_answer(rt, alloc, spelled),
        "append" => append_answer(alloc, spelled),
        "mem-source" => mem_source_answer(alloc, spelled),
        "sure-source" => sure_source_answer(alloc, spelled),
        "reader" => reader_answer(alloc, spelled),
        "mem-sink" => mem_sink_answer(alloc, spelled),
        "sure-sink" => sure_sink_answer(alloc, spelled),
        "writer" => writer_answer(alloc, spelled),
        _ => Ok(None),
    }
}

//! Answers to cases that are whole runs.
use crate::run::case::Case;
use crate::run::failing_case::FailingCase;
use crate::run::inputs::{bytes_of, only, words_of};
use crate::run::natives::{counting_run, program_run, run_words};
use crate::run::noting_gate::NotingGate;
use crate::run::patterns::put_counts;
use crate::run::surely::{SureRun, sure_run};
use crate::run::told::{named, put_lines};
use cn_io::{MemSink, MemSource};
use lang_eval::NativeList;
use std::alloc::{AllocError, AllocGlobal, Global};
use std::random::RandomSource;
use std::str;
use std::sync::atomic::{AtomicU64, Ordering};
use std::sync::{Arc, Wait};
use std::thread::Threads;

/// How many bytes are moved at most in a call.
const PIECE: usize = 16;

/// Bytes of a text for which there is room where a case doesn't say it.
const ROOM: usize = 65_536;

/// The answer to a case of `run`, over a source and a sink that fail. None: it has too few words.
pub(crate) fn run_answer<R: Threads + Wait + Sync + RandomSource + AllocGlobal>(
    rt: &R,
    alloc: Global,
    spelled: &str,
) -> Result<Option<String>, AllocError> {
    let Some(case) = FailingCase::read(spelled) else {
        return Ok(None);
    };
    let words = words_of(alloc, case.words)?;
    let bytes = bytes_of(alloc, case.source)?;
    let mut source = MemSource::new(bytes, PIECE, only(alloc, case.take)?);
    let mut sink = MemSink::new(alloc, PIECE, only(alloc, case.put)?);
    let end = run_words(rt, alloc, &words, &mut source, &mut sink)?;
    let mut told = named(alloc, case.name, end.as_str())?;
    put_lines(alloc, sink.written(), &mut told)?;
    Ok(Some(told))
}

/// The answer to a case of `surely`. None: it has too few words.
pub(crate) fn sure_answer<R: Threads + Wait + Sync + RandomSource + AllocGlobal>(
    rt: &R,
    alloc: Global,
    spelled: &str,
) -> Result<Option<String>, AllocError> {
    let Some(case) = Case::read(spelled) else {
        return Ok(None);
    };
    let room = case.given.parse().unwrap_or(0);
    let ran = program_run(rt, alloc, &case, room)?;
    let SureRun { mut told, sink } = ran;
    put_lines(alloc, sink.written(), &mut told)?;
    Ok(Some(told))
}

/// The answer to a case of `count`, how many lines fit each pattern. None: it has too few words.
pub(crate) fn count_answer<R: Threads + Wait + Sync + RandomSource + AllocGlobal>(
    rt: &R,
    alloc: Global,
    spelled: &str,
) -> Result<Option<String>, AllocError> {
    let Some(case) = Case::read(spelled) else {
        return Ok(None);
    };
    let ran = program_run(rt, alloc, &case, ROOM)?;
    let SureRun { mut told, sink } = ran;
    let text = str::from_utf8(sink.written()).unwrap_or("no text");
    put_counts(alloc, text, case.given, &mut told)?;
    Ok(Some(told))
}

/// The answer to a case of `gate`, what the gate noted. None: it has too few words.
pub(crate) fn gate_answer<R: Threads + Wait + Sync + RandomSource + AllocGlobal>(
    rt: &R,
    alloc: Global,
    spelled: &str,
) -> Result<Option<String>, AllocError> {
    let Some(case) = Case::read(spelled) else {
        return Ok(None);
    };
    let gate = NotingGate::new(case.given.parse().unwrap_or(0));
    let ran = sure_run(rt, &gate, alloc, &case, ROOM, NativeList::new(alloc))?;
    let SureRun { mut told, .. } = ran;
    put_noted(&gate, &mut told)?;
    Ok(Some(told))
}

fn put_noted(gate: &NotingGate, out: &mut String) -> Result<(), AllocError> {
    let (came, first, last) = (gate.came(), &gate.first, &gate.last);
    write!(
        out,
        "{came} came, the first to {} {}",
        first.place(),
        first.view()
    )?;
    write!(out, ", the last to {} {}", last.place(), last.view())?;
    out.push_str(if gate.have_met() {
        ", two met\n"
    } else {
        ", none met\n"
    })
}

/// The answer to a case of `native`, whether the native was asked. None: it has too few words.
pub(crate) fn native_answer<R: Threads + Wait + Sync + RandomSource + AllocGlobal>(
    rt: &R,
    alloc: Global,
    spelled: &str,
) -> Result<Option<String>, AllocError> {
    let Some(case) = Case::read(spelled) else {
        return Ok(None);
    };
    let asked = Arc::new(alloc, AtomicU64::new(0))?;
    let ran = counting_run(rt, alloc, &case, ROOM, Arc::try_clone(&asked)?)?;
    let SureRun { mut told, sink } = ran;
    put_lines(alloc, sink.written(), &mut told)?;
    told.push_str(if asked.load(Ordering::SeqCst) == 0 {
        "not asked\n"
    } else {
        "asked\n"
    })?;
    Ok(Some(told))
}

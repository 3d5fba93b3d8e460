//! Runs with the natives of cases. Each makes its natives where it uses them up, since no function hands out what lies behind a trait object.
use crate::run::case::Case;
use crate::run::counting_native::CountingNative;
use crate::run::surely::{SureRun, sure_run};
use crate::run::told::end_told;
use canton_run::{Platform, run};
use cli_words::WordList;
use cn_io::{Sink, Source};
use lane_pool::FreeGate;
use lang_eval::{NativeList, flash_choice};
use ledger_terms::{Known, Name, StmtList};
use native_choice::FlashNative;
use note_rule::flash_on_go;
use std::alloc::{AllocError, AllocGlobal, Global};
use std::random::RandomSource;
use std::sync::atomic::AtomicU64;
use std::sync::{Arc, Wait};
use std::thread::Threads;

/// Runs words with the natives and the rules of the program. The result is what is told of the end.
pub(crate) fn run_words<R: Threads + Wait + Sync + RandomSource + AllocGlobal, S: Source, K: Sink>(
    rt: &R,
    alloc: Global,
    words: &WordList,
    source: &mut S,
    sink: &mut K,
) -> Result<String, AllocError> {
    let mut natives = NativeList::new(alloc);
    natives.push(Box::new(alloc, FlashNative::new(alloc)?)?)?;
    run_told(rt, alloc, words, source, sink, natives)
}

// Runs words and tells the end. A function that holds the end of a run by value is dear to prove, so it does nothing else. The program ends soon and
// doesn't give it back.
fn run_told<R: Threads + Wait + Sync + RandomSource + AllocGlobal, S: Source, K: Sink>(
    rt: &R,
    alloc: Global,
    words: &WordList,
    source: &mut S,
    sink: &mut K,
    natives: NativeList,
) -> Result<String, AllocError> {
    let platform = Platform {
        rt,
        gate: &FreeGate,
    };
    let rule = move |_name: Name, known: &Known| flash_on_go(alloc, known);
    let finish = run(&platform, words, source, sink, natives, rule);
    let told = end_told(alloc, &finish);
    finish.forget();
    told
}

/// Runs a case with the natives of the program, into a sink with room for so many bytes.
pub(crate) fn program_run<R: Threads + Wait + Sync + RandomSource + AllocGlobal>(
    rt: &R,
    alloc: Global,
    case: &Case<'_>,
    room: usize,
) -> Result<SureRun, AllocError> {
    let mut natives = NativeList::new(alloc);
    natives.push(Box::new(alloc, FlashNative::new(alloc)?)?)?;
    sure_run(rt, &FreeGate, alloc, case, room, natives)
}

/// Runs a case with a native of Flash that counts in `asked` how often it is asked: it has the text of Flash where the case says `own`, else one that
/// does nothing.
pub(crate) fn counting_run<R: Threads + Wait + Sync + RandomSource + AllocGlobal>(
    rt: &R,
    alloc: Global,
    case: &Case<'_>,
    room: usize,
    asked: Arc<AtomicU64, Global>,
) -> Result<SureRun, AllocError> {
    let mut body = flash_choice(alloc)?;
    if case.given != "own" {
        body.body = StmtList::new(alloc);
    }
    let mut natives = NativeList::new(alloc);
    natives.push(Box::new(alloc, CountingNative { body, asked })?)?;
    sure_run(rt, &FreeGate, alloc, case, room, natives)
}

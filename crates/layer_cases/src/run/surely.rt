//! A run that nothing but want of memory can stop.
ghost use Rattle.std.specs.Prelude.{◌≡◌};
ghost use Rattle.std.proofs.Common.{◌⊎◌};
ghost use Rattle.trigger_rules.specs.Answers.{CanAsk, GivesExercises, MayAnswer};
ghost use Rattle.layer_cases.specs.Surely.{IsReady};

use crate::run::case::Case;
use crate::run::inputs::{bytes_of, words_of};
use crate::run::told::{end_told, named};
use canton_run::{Finish, Platform, run};
use cli_words::WordList;
use cn_io::{SureSink, SureSource};
use lane_pool::Gate;
use lang_eval::NativeList;
use ledger_terms::{Command, Known, Name};
use note_rule::flash_on_go;
use std::alloc::{AllocError, AllocGlobal, Global};
use std::random::RandomSource;
use std::sync::Wait;
use std::thread::Threads;

/// Runs words over a source that never fails and a sink that has taken its room ahead. Where the source gives the job's script and the room
/// is enough for the text, nothing but want of memory is in the way.
pub(crate) fn run_surely<
    R: Threads + Wait + Sync + RandomSource + AllocGlobal,
    G: Gate + Sync,
    F: Fn(Name, &Known) -> Result<Option<Command>, AllocError> + Drop,
>(
    platform: &Platform<'_, R, G>,
    words: &WordList,
    source: &mut SureSource,
    sink: &mut SureSink,
    natives: NativeList,
    rule: F,
) -> Finish
    requires askable { CanAsk (F.pre rule) }
    requires exercises { GivesExercises (MayAnswer (F.post rule)) }
    ensures ready { IsReady (MayAnswer (F.post rule)) words.now source.old sink.old.room → (result.status ≡ 0) ⊎ (result.status ≡ 70) }
{
    run(platform, words, source, sink, natives, rule)
}

// Runs words so, with the rules of the program, and tells the end.
fn surely_told<R: Threads + Wait + Sync + RandomSource + AllocGlobal, G: Gate + Sync>(
    rt: &R,
    gate: &G,
    words: &WordList,
    source: &mut SureSource,
    sink: &mut SureSink,
    natives: NativeList,
) -> Result<String, AllocError> {
    let alloc = *words.allocator();
    let rule = move |_name: Name, known: &Known| flash_on_go(alloc, known);
    let finish = run_surely(&Platform { rt, gate }, words, source, sink, natives, rule);
    let told = end_told(alloc, &finish);
    finish.forget();
    told
}

/// What is told of how a case ended, and the sink with what was written.
#[derive(Drop)]
pub(crate) struct SureRun {
    pub(crate) told: String,
    pub(crate) sink: SureSink,
}

/// Runs a case into a sink with room for so many bytes.
pub(crate) fn sure_run<R: Threads + Wait + Sync + RandomSource + AllocGlobal, G: Gate + Sync>(
    rt: &R,
    gate: &G,
    alloc: Global,
    case: &Case<'_>,
    room: usize,
    natives: NativeList,
) -> Result<SureRun, AllocError> {
    let words = words_of(alloc, case.words)?;
    let mut source = SureSource::new(bytes_of(alloc, case.source)?);
    let mut sink = SureSink::new(alloc);
    sink.reserve(room)?;
    let end = surely_told(rt, gate, &words, &mut source, &mut sink, natives)?;
    let told = named(alloc, case.name, end.as_str())?;
    Ok(SureRun { told, sink })
}

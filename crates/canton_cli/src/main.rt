//! The program: a Canton synchroniser with its participants in one process, which does what its words ask for and ends with a status.
#![tactic(auto)]

use canton_run::{Finish, Platform, ended, line, run, status_without_words, words_after_name};
use cli_words::WordList;
use cn_io::{ReadSource, Sink, Source, WriteSink};
use lane_pool::FreeGate;
use lang_eval::NativeList;
use ledger_terms::{Known, Name};
use native_choice::FlashNative;
use note_rule::flash_on_go;
use std::alloc::{AllocError, AllocGlobal, Global};
use std::process::ExitCode;
use std::random::RandomSource;
use std::sync::Wait;
use std::thread::Threads;
use std::{env, io};

/// The words of the command line after the program's name.
fn words_of(rt: &HostRuntime) -> io::Result<WordList> {
    let all: Vec<String> = env::args(rt)?.collect(rt.alloc())?;
    Ok(words_after_name(rt.alloc(), all.as_slice())?)
}

/// Does what the words ask for, with the choices that are written in Rattle, and with rules that flash a note whose text is `go`.
fn run_words<R: Threads + Wait + Sync + RandomSource + AllocGlobal, S: Source, K: Sink>(
    rt: &R,
    alloc: Global,
    words: &WordList,
    source: &mut S,
    sink: &mut K,
) -> Result<Finish, AllocError> {
    let mut natives = NativeList::new(alloc);
    natives.push(Box::new(alloc, FlashNative::new(alloc)?)?)?;
    let platform = Platform {
        rt,
        gate: &FreeGate,
    };
    let rule = move |_name: Name, known: &Known| flash_on_go(alloc, known);
    Ok(run(&platform, words, source, sink, natives, rule))
}

/// The end of what the words ask for; where they or the natives can't be had, an end with a status alone.
fn finish_of<R: Threads + Wait + Sync + RandomSource + AllocGlobal, S: Source, K: Sink>(
    rt: &R,
    alloc: Global,
    words: io::Result<WordList>,
    source: &mut S,
    sink: &mut K,
) -> Finish {
    match words {
        Ok(words) => match run_words(rt, alloc, &words, source, sink) {
            Ok(finish) => finish,
            Err(AllocError) => ended(alloc, 70, None),
        },
        Err(error) => ended(alloc, status_without_words(error.kind()), None),
    }
}

/// Writes the line that says why, on standard error, for an end with another status than 0.
fn tell(rt: &HostRuntime, finish: &Finish) {
    if finish.status != 0 {
        let _ = match line(rt.alloc(), finish) {
            Ok(text) => eprintln!(rt; "{text}"),
            Err(_) => eprintln!(rt; "canton_cli: out of memory"),
        };
    }
}

fn main(rt: HostRuntime) -> ExitCode {
    let alloc = rt.alloc();
    let words = words_of(&rt);
    let mut source = ReadSource::new(rt.stdin());
    let mut sink = WriteSink::new(rt.stdout());
    let finish = finish_of(&rt, alloc, words, &mut source, &mut sink);
    tell(&rt, &finish);
    let status = finish.status;
    // the process ends here, and gives all memory back at once
    finish.forget();
    ExitCode::from(status)
}

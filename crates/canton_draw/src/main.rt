//! Draws what its first word says: `chart` the report of a run, as a sequence chart, and `views` the requests of a script that it runs, each as
//! a tree with views, both as SVG; and `page` the run of a script place by place, as HTML.
#![tactic(auto)]

mod asked;
mod drawing;
mod end;
mod fault;
mod line;
mod script_log;
mod script_page;
mod script_picture;
mod top_call;
mod words;

use canton_run::status_without_words;
use cn_io::{ReadSource, Sink, Source, WriteSink};
use drawing::Drawing;
use end::End;
use lane_pool::FreeGate;
use line::line_of;
use shared_rounds::Workers;
use std::alloc::{AllocGlobal, Global};
use std::env::Env;
use std::process::ExitCode;
use std::random::RandomSource;
use std::sync::Wait;
use std::thread::Threads;
use std::{env, io};
use top_call::draw;

/// The first word has room for so many bytes; a longer one names no drawing.
const MOST_WORD_BYTES: usize = 8;

/// The drawing that the first word names. It is known even where there is no memory for all words. None: it names none.
fn drawing_of(rt: &HostRuntime) -> Option<Drawing> {
    let mut word = [0u8; MOST_WORD_BYTES];
    match rt.arg(1, &mut word) {
        Ok(count) => Drawing::named(word.get(..count)?),
        Err(_) => None,
    }
}

fn words_of(rt: &HostRuntime) -> io::Result<Vec<String>> {
    Ok(env::args(rt)?.collect(rt.alloc())?)
}

/// Does what the words ask for; where there was no memory for the words it ends with the status of that. A script is run by one thread.
fn end_of<R: Threads + Wait + Sync + RandomSource + AllocGlobal, S: Source, K: Sink>(
    rt: &R,
    alloc: Global,
    drawing: Drawing,
    words: io::Result<Vec<String>>,
    source: &mut S,
    sink: &mut K,
) -> End {
    match words {
        Ok(words) => {
            let workers = Workers {
                rt,
                gate: &FreeGate,
                alloc,
                count: 0,
            };
            draw(&workers, drawing, words.as_slice(), source, sink)
        }
        Err(error) => End::of(status_without_words(error.kind())),
    }
}

/// Writes the line for an end with another status than 0.
fn tell(rt: &HostRuntime, name: &str, end: End) {
    let _ = match line_of(rt.alloc(), name, end) {
        Ok(text) => eprintln!(rt; "{text}"),
        Err(_) => eprintln!(rt; "{name}: out of memory"),
    };
}

fn main(rt: HostRuntime) -> ExitCode {
    let Some(drawing) = drawing_of(&rt) else {
        let _ = eprintln!(rt; "canton_draw: usage");
        return ExitCode::from(2);
    };
    let words = words_of(&rt);
    let mut source = ReadSource::new(rt.stdin());
    let mut sink = WriteSink::new(rt.stdout());
    let end = end_of(&rt, rt.alloc(), drawing, words, &mut source, &mut sink);
    let status = end.status;
    if status != 0 {
        tell(&rt, drawing.name(), end);
    }
    ExitCode::from(status)
}

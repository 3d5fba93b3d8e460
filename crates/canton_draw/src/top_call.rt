//! The top call: words, a source and a sink in, and how it ended out.
ghost use Rattle.std.specs.Prelude.{◌≡◌, ◌≢◌, ◌⊎◌};

use crate::asked::Asked;
use crate::drawing::Drawing;
use crate::end::End;
use crate::script_page::script_page;
use crate::script_picture::script_picture;
use crate::words::asked_by;
use cn_io::{Sink, Source, read_all, write_all};
use lane_pool::Gate;
use ledger_terms::Text;
use ledger_terms::limits::MOST_SCRIPT_BYTES;
use report_chart::chart_of;
use script_read::read_script;
use shared_rounds::Workers;
use std::alloc::AllocGlobal;
use std::random::RandomSource;
use std::sync::Wait;
use std::thread::Threads;

/// The most bytes that a report may have.
const MOST_REPORT_BYTES: usize = 67_108_864;

/// The text that is to be written: the help, or the picture or the page of what the source gives. Err: how the program ends where there is none.
fn text_of<R: Threads + Wait + Sync + RandomSource + AllocGlobal, G: Gate + Sync, S: Source>(
    workers: &Workers<'_, R, G>,
    asked: Asked,
    source: &mut S,
) -> Result<Text, End> {
    let alloc = workers.alloc;
    match asked {
        Asked::Help(text) => Ok(text),
        Asked::Chart => {
            let bytes = read_all(alloc, source, MOST_REPORT_BYTES)?;
            Ok(chart_of(alloc, bytes.as_slice())?)
        }
        Asked::Views { reader } => {
            let bytes = read_all(alloc, source, MOST_SCRIPT_BYTES)?;
            let script = read_script(alloc, bytes.as_slice())?;
            script_picture(workers, script, reader)
        }
        Asked::Page { reader } => {
            let bytes = read_all(alloc, source, MOST_SCRIPT_BYTES)?;
            let script = read_script(alloc, bytes.as_slice())?;
            script_page(workers, script, reader)
        }
    }
}

/// Writes the whole text. The status is 5 where the sink failed.
fn write<K: Sink>(sink: &mut K, text: &Text) -> End
    ensures { (result.status ≡ 0) ⊎ (result.status ≡ 5) }
{
    match write_all(sink, text.as_str().as_bytes()) {
        Ok(()) => End::of(0),
        Err(_) => End::of(5),
    }
}

/// Does what the words ask for, of which the first two are the program's name and the drawing's: writes the help, or reads a report or a script from
/// the source and writes its picture or page. The text is made whole before anything of it is written.
pub(crate) fn draw<
    R: Threads + Wait + Sync + RandomSource + AllocGlobal,
    G: Gate + Sync,
    S: Source,
    K: Sink,
>(
    workers: &Workers<'_, R, G>,
    drawing: Drawing,
    words: &[String],
    source: &mut S,
    sink: &mut K,
) -> End
    ensures nothing { result.status ≢ 0 → result.status ≢ 5 → K.held sink.new ≡ K.held sink.old }
{
    match asked_by(workers.alloc, drawing, words) {
        Ok(asked) => match text_of(workers, asked, source) {
            Ok(text) => write(sink, &text),
            Err(end) => end,
        },
        Err(end) => end,
    }
}

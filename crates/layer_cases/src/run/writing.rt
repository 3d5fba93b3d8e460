//! Sinks to which one text after another is written whole, how each writing ends, and what they hold then. Texts have commas between them.
//!
//! - `mem-sink PIECE CALL TEXTS`: a sink that moves so many bytes a call, and fails at one.
//! - `sure-sink ROOM EARLY TEXTS`: one that takes its room behind the early texts.
//! - `writer TEXTS`: one over `HaltingWriter`.
use crate::run::halting_writer::HaltingWriter;
use crate::run::inputs::only;
use crate::run::told::put_lines;
use cn_io::{MemSink, Sink, SureSink, WriteSink, write_all};
use std::alloc::{AllocError, Global};

// Puts how the writing of each text ends.
fn put_writings<K: Sink>(sink: &mut K, texts: &str, out: &mut String) -> Result<(), AllocError> {
    for text in texts.split(',') {
        let end = match write_all(sink, text.as_bytes()) {
            Ok(()) => "taken",
            Err(_) => "failed",
        };
        write!(out, "{end} {text}\n")?;
    }
    Ok(())
}

/// The answer to a case of `mem-sink`. None: it has no further word.
pub(crate) fn mem_sink_answer(alloc: Global, spelled: &str) -> Result<Option<String>, AllocError> {
    let Some((piece, rest)) = spelled.split_once(' ') else {
        return Ok(None);
    };
    let (call, texts) = rest.split_once(' ').unwrap_or(("0", ""));
    let calls = only(alloc, call.parse().unwrap_or(0))?;
    let piece: usize = piece.parse().unwrap_or(1);
    let mut sink = MemSink::new(alloc, piece.max(1), calls);
    let mut out = format!(in alloc; "sink that fails at call {call}\n")?;
    put_writings(&mut sink, texts, &mut out)?;
    put_lines(alloc, sink.written(), &mut out)?;
    Ok(Some(out))
}

/// The answer to a case of `sure-sink`. None: it has no further word.
pub(crate) fn sure_sink_answer(alloc: Global, spelled: &str) -> Result<Option<String>, AllocError> {
    let Some((room, rest)) = spelled.split_once(' ') else {
        return Ok(None);
    };
    let (early, texts) = rest.split_once(' ').unwrap_or((rest, ""));
    let mut sink = SureSink::new(alloc);
    let mut out = format!(in alloc; "sink with room {room}\n")?;
    put_writings(&mut sink, early, &mut out)?;
    sink.reserve(room.parse().unwrap_or(0))?;
    put_writings(&mut sink, texts, &mut out)?;
    put_lines(alloc, sink.written(), &mut out)?;
    Ok(Some(out))
}

/// The answer to a case of `writer`, whose only further word is its texts.
pub(crate) fn writer_answer(alloc: Global, texts: &str) -> Result<Option<String>, AllocError> {
    let mut out = format!(in alloc; "sink over a writer\n")?;
    let mut taken = [0; 4];
    let mut sink = WriteSink::new(HaltingWriter {
        writes: 0,
        taken: &mut taken,
        at: 0,
    });
    put_writings(&mut sink, texts, &mut out)?;
    put_lines(alloc, &taken, &mut out)?;
    Ok(Some(out))
}

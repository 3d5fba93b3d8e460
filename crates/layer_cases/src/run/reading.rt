//! Sources that are read again and again, each time whole within a limit, and what each reading gives.
//!
//! - `mem-source PIECE CALL LIMITS BYTES`: a source that moves so many bytes a call, and fails at one.
//! - `sure-source LIMITS BYTES`: one that never fails.
//! - `reader LIMITS`: one over `HaltingReader`.
use crate::run::halting_reader::HaltingReader;
use crate::run::inputs::{bytes_of, only};
use crate::run::told::put_lines;
use cn_io::{MemSource, ReadFault, ReadSource, Source, SureSource, read_all};
use std::alloc::{AllocError, Global};

// Reads the source whole within a limit, and puts what it gives, or how that fails.
fn put_reading<S: Source>(
    alloc: Global,
    source: &mut S,
    limit: &str,
    out: &mut String,
) -> Result<(), AllocError> {
    match read_all(alloc, source, limit.parse().unwrap_or(0)) {
        Ok(bytes) => put_lines(alloc, bytes.as_slice(), out),
        Err(ReadFault::Failed) => out.push_str("failed\n"),
        Err(ReadFault::TooLong) => out.push_str("too long\n"),
        Err(ReadFault::Memory) => Err(AllocError),
    }
}

// The answer: what the source gives within each of the limits, one after another.
fn readings<S: Source>(
    alloc: Global,
    source: &mut S,
    limits: &str,
) -> Result<Option<String>, AllocError> {
    let mut out = format!(in alloc; "source within {limits}\n")?;
    for limit in limits.split(',') {
        put_reading(alloc, source, limit, &mut out)?;
    }
    Ok(Some(out))
}

/// The answer to a case of `mem-source`. None: it has no further word.
pub(crate) fn mem_source_answer(
    alloc: Global,
    spelled: &str,
) -> Result<Option<String>, AllocError> {
    let Some((piece, rest)) = spelled.split_once(' ') else {
        return Ok(None);
    };
    let (call, rest) = rest.split_once(' ').unwrap_or(("0", ""));
    let (limits, text) = rest.split_once(' ').unwrap_or((rest, ""));
    let bytes = bytes_of(alloc, text)?;
    let calls = only(alloc, call.parse().unwrap_or(0))?;
    let piece: usize = piece.parse().unwrap_or(1);
    let mut source = MemSource::new(bytes, piece.max(1), calls);
    readings(alloc, &mut source, limits)
}

/// The answer to a case of `sure-source`. None: it has no bytes.
pub(crate) fn sure_source_answer(
    alloc: Global,
    spelled: &str,
) -> Result<Option<String>, AllocError> {
    let Some((limits, text)) = spelled.split_once(' ') else {
        return Ok(None);
    };
    let mut source = SureSource::new(bytes_of(alloc, text)?);
    readings(alloc, &mut source, limits)
}

/// The answer to a case of `reader`, whose only further word is its limits.
pub(crate) fn reader_answer(alloc: Global, limits: &str) -> Result<Option<String>, AllocError> {
    let mut source = ReadSource::new(HaltingReader { reads: 0 });
    readings(alloc, &mut source, limits)
}

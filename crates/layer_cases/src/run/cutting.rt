//! `cut NAME SOURCE`: each beginning of the source that isn't all of it is run, and those are counted that aren't JSON.
use crate::run::inputs::words_of;
use crate::run::natives::run_words;
use cli_words::WordList;
use cn_io::{SureSink, SureSource};
use ledger_terms::Bytes;
use std::alloc::{AllocError, AllocGlobal, Global};
use std::random::RandomSource;
use std::sync::Wait;
use std::thread::Threads;

const NOT_JSON: &str = "canton_cli: script NotJson";

/// What is told of the end of a run whose script isn't JSON.
const REFUSED: &str = "status 3\ncanton_cli: script NotJson\n";

/// Whether a run of these bytes ends with the fault NotJson and writes nothing.
fn is_not_json<R: Threads + Wait + Sync + RandomSource + AllocGlobal>(
    rt: &R,
    alloc: Global,
    words: &WordList,
    beginning: &[u8],
) -> Result<bool, AllocError> {
    let mut bytes = Bytes::new(alloc);
    bytes.extend(beginning)?;
    let mut source = SureSource::new(bytes);
    let mut sink = SureSink::new(alloc);
    let end = run_words(rt, alloc, words, &mut source, &mut sink)?;
    Ok(end.as_str() == REFUSED && sink.written().is_empty())
}

/// The answer to such a case, whose words behind the first are `spelled`. None: they spell no case.
pub(crate) fn cut_answer<R: Threads + Wait + Sync + RandomSource + AllocGlobal>(
    rt: &R,
    alloc: Global,
    spelled: &str,
) -> Result<Option<String>, AllocError> {
    let Some((name, source)) = spelled.split_once(' ') else {
        return Ok(None);
    };
    let words = words_of(alloc, "run")?;
    let bytes = source.as_bytes();
    let all = bytes.len();
    let mut refused = 0u64;
    for count in 0..all {
        if is_not_json(rt, alloc, &words, &bytes[..count])? {
            refused = refused.saturating_add(1);
        }
    }
    let out = format!(in alloc; "cut {name}\n{refused} of {all} are {NOT_JSON}\n")?;
    Ok(Some(out))
}

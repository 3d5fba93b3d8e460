//! Words and their jobs.
use crate::answer::Answer;
use cli_words::{Job, WordList, WordsFault, read_words};
use ledger_terms::Text;
use std::alloc::{AllocError, Global};

/// Puts the job of words at the end, or that there is none. A bar stands before each word.
pub(crate) fn put_job(alloc: Global, words: &str, out: &mut Answer) {
    let Ok(words) = words_of(alloc, words) else {
        return out.lack();
    };
    match read_words(alloc, &words) {
        Ok(job) => put_asked(job, out),
        Err(WordsFault::Usage) => out.line(&["usage"]),
        Err(WordsFault::Memory) => out.lack(),
    }
}

/// The words behind the bars of a text.
fn words_of(alloc: Global, text: &str) -> Result<WordList, AllocError> {
    let mut words = WordList::new(alloc);
    let mut pieces = text.split('|');
    pieces.next();
    for word in pieces {
        words.push(Text::of(alloc, word)?)?;
    }
    Ok(words)
}

fn put_asked(job: Job, out: &mut Answer) {
    match job {
        Job::Run { workers, log } => put_options("run", workers, log, out),
        Job::Commitments { workers, log } => put_options("commitments", workers, log, out),
        Job::Dump { workers, log } => put_options("dump", workers, log, out),
        Job::Audit => out.put("audit"),
        Job::Gen {
            count,
            seed,
            workers,
        } => {
            put_numbered("gen count ", count as u64, out);
            put_numbered(" seed ", seed, out);
            put_numbered(" workers ", workers as u64, out);
        }
    }
    out.put("\n");
}

fn put_options(command: &str, workers: u32, log: u64, out: &mut Answer) {
    out.put(command);
    put_numbered(" workers ", workers as u64, out);
    put_numbered(" log ", log, out);
}

fn put_numbered(word: &str, number: u64, out: &mut Answer) {
    out.put(word);
    out.number(number);
}

//! Words as a job. `alloc` gives the memory for reading; where it is wanting, the fault is Memory.
ghost use Rattle.std.specs.Prelude.{◌≡◌, ◌≢◌, ◌↔◌, map, Some, None, IfOk, Err};
ghost use Rattle.cli_words.specs.Arguments.{AreUtf8};
ghost use Rattle.cli_words.specs.Jobs.{job_of};
ghost use Rattle.cli_words.specs.Within.{IsWithin};

use crate::arguments::read_arguments;
use crate::job::Job;
use crate::jobs::job_by;
use crate::word_list::WordList;
use crate::words_fault::WordsFault;
use ledger_terms::Text;
use std::alloc::{AllocError, Global};

/// The words as slices.
fn texts_of(alloc: Global, words: &[Text]) -> Result<Vec<&str>, AllocError>
    ensures same { IfOk result (λ texts. map (λ text. text.now) texts.items ≡ words.now) }
    ensures utf8 { IfOk result (λ texts. AreUtf8 words.now) }
{
    let mut texts = Vec::new(alloc);
    'words: for word in words {
        texts.push(word.as_str())?;
    }
    Ok(texts)
}

/// The job that the words ask for: `run`, `commitments` or `dump` with `[--workers N] [--log N]`, `audit`, or `gen COUNT SEED [--workers N]`. Options
/// stand anywhere behind the command, each once at most, its number joined by `=` or as the next word; behind `--` no word is an option. All else, and
/// a number outside its limits, is Usage.
#[tactic(auto, unfolding(crate::specs::Jobs::job_of))]
pub fn read_words(alloc: Global, words: &WordList) -> Result<Job, WordsFault>
    ensures job { IfOk result (λ job. job_of words.now ≡ Some job) }
    ensures within { IfOk result IsWithin }
    ensures usage { result ≢ Err WordsFault.Memory → (result ≡ Err WordsFault.Usage ↔ job_of words.now ≡ None) }
{
    let Some((command, others)) = words.as_slice().split_first() else {
        return Err(WordsFault::Usage);
    };
    let texts = texts_of(alloc, others)?;
    let given = read_arguments(alloc, texts.as_slice())?;
    match job_by(command.as_str(), &given) {
        Some(job) => Ok(job),
        None => Err(WordsFault::Usage),
    }
}

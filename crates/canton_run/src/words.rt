//! The words of the command line.
ghost use Rattle.std.specs.Prelude.{◌≡◌, ◌≢◌, ◌↔◌, IfOk, drop, map, string_bytes};
ghost use Rattle.std.specs.declared.io.ErrorKind.TheVariants.{InvalidData};

use cli_words::WordList;
use ledger_terms::Text;
use std::alloc::{AllocError, Global};
use std::io::ErrorKind;

/// The words of the command line that stand after the program's name, which is the first of `all`; none where that is missing.
pub fn words_after_name(alloc: Global, all: &[String]) -> Result<WordList, AllocError>
    ensures { IfOk result (λ words. words ≡ map string_bytes (drop 1 all.now)) }
{
    let mut words = WordList::new(alloc);
    let Some((_, after)) = all.split_first() else {
        return Ok(words);
    };
    'words: for word in after {
        words.push(Text::of(alloc, word.as_str())?)?;
    }
    Ok(words)
}

/// The status of a program whose words can't be had, by the kind of the error: 2 where the words are no text, and else 70, as for want of memory.
pub fn status_without_words(why: ErrorKind) -> u8
    ensures text { result ≡ 2 ↔ why ≡ InvalidData }
    ensures memory { result ≢ 2 → result ≡ 70 }
{
    match why {
        ErrorKind::InvalidData => 2,
        _ => 70,
    }
}

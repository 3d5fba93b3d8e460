//! What cases give as text.
use cli_words::WordList;
use ledger_terms::{Bytes, Text, U64List};
use std::alloc::{AllocError, Global};

/// The words of the command line that a text has with commas between them.
pub(crate) fn words_of(alloc: Global, words: &str) -> Result<WordList, AllocError> {
    let mut list = WordList::new(alloc);
    for word in words.split(',') {
        list.push(Text::of(alloc, word)?)?;
    }
    Ok(list)
}

/// The bytes of the text, or those that hexadecimal digits spell behind `0x`; none where they are no digits.
pub(crate) fn bytes_of(alloc: Global, text: &str) -> Result<Bytes, AllocError> {
    let mut bytes = Bytes::new(alloc);
    let Some(digits) = text.strip_prefix("0x") else {
        bytes.extend(text.as_bytes())?;
        return Ok(bytes);
    };
    if let Ok(spelled) = hex::decode(alloc, digits) {
        bytes.extend(spelled.as_slice())?;
    }
    Ok(bytes)
}

/// The list of calls at which a source or a sink is to fail, which is this one alone; 0 is no call.
pub(crate) fn only(alloc: Global, call: u64) -> Result<U64List, AllocError> {
    let mut calls = U64List::new(alloc);
    calls.push(call)?;
    Ok(calls)
}

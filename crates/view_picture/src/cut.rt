//! Texts that have no room.
use std::alloc::{AllocError, Global};

/// The first letters of a text with an ellipsis behind them, `letters` together; None where the text has no more letters than that.
pub(crate) fn cut(alloc: Global, text: &str, letters: u32) -> Result<Option<String>, AllocError> {
    if text.chars().count() <= letters as usize {
        return Ok(None);
    }
    let mut part = String::new(alloc);
    for (_, letter) in (1..letters).zip(text.chars()) {
        part.push(letter)?;
    }
    part.push('\u{2026}')?;
    Ok(Some(part))
}

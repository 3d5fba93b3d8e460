//! Texts that have to fit.
use std::alloc::{AllocError, Global};

/// From this character on letters are taken to be twice as wide as Latin ones.
const FIRST_WIDE: char = '\u{1100}';

/// How many letters wide a character is: one, or two from `FIRST_WIDE` on.
fn width_of(letter: char) -> u32 {
    if letter < FIRST_WIDE { 1 } else { 2 }
}

/// Whether a text is at most `most` letters wide; a character from U+1100 on counts as two.
pub fn fits(text: &str, most: u32) -> bool {
    let mut width = 0u32;
    for letter in text.chars() {
        width = width.saturating_add(width_of(letter));
        if width > most {
            return false;
        }
    }
    true
}

/// As much of the beginning of a text as is at most `most` letters wide with an ellipsis behind it. The ellipsis stands there in any case.
pub fn shortened(alloc: Global, text: &str, most: u32) -> Result<String, AllocError> {
    let mut kept = String::new(alloc);
    let mut width = 1u32;
    for letter in text.chars() {
        width = width.saturating_add(width_of(letter));
        if width > most {
            break;
        }
        kept.push(letter)?;
    }
    kept.push('\u{2026}')?;
    Ok(kept)
}

//! Texts without the characters that XML has none of.
use std::alloc::{AllocError, Global};

/// Whether XML 1.0 has the character (2.2, Char).
fn is_character(letter: char) -> bool {
    match letter {
        '\t' | '\n' | '\r' => true,
        '\0'..='\u{1f}' | '\u{fffe}' | '\u{ffff}' => false,
        _ => true,
    }
}

/// The text with U+FFFD in place of each character that XML 1.0 doesn't have, such as most control characters. A text from outside
/// has to go through it once, or no reader takes the picture.
pub fn drawable(alloc: Global, text: &str) -> Result<String, AllocError> {
    let mut kept = String::new(alloc);
    for letter in text.chars() {
        kept.push(if is_character(letter) {
            letter
        } else {
            '\u{fffd}'
        })?;
    }
    Ok(kept)
}

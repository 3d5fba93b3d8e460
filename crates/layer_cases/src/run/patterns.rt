//! Patterns of lines.
//!
//! Patterns stand behind one another with `;` between them. Each is one spelling or more with `|` between them, in which `_` stands for a
//! blank, and `*`, once, for any text.
use std::alloc::{AllocError, Global};

/// Whether a line fits one spelling.
fn fits(line: &str, spelling: &str) -> bool {
    match spelling.split_once('*') {
        Some((beginning, end)) => line.starts_with(beginning) && line.ends_with(end),
        None => line == spelling,
    }
}

/// Whether a line fits one of the spellings of a pattern.
fn fits_one(line: &str, pattern: &str) -> bool {
    for spelling in pattern.split('|') {
        if fits(line, spelling) {
            return true;
        }
    }
    false
}

/// How many lines of a text fit a pattern.
fn count_of(text: &str, pattern: &str) -> u64 {
    let mut count = 0u64;
    for line in text.lines() {
        if fits_one(line, pattern) {
            count = count.saturating_add(1);
        }
    }
    count
}

/// Puts at the end how many lines of a text fit each of the patterns.
pub(crate) fn put_counts(
    alloc: Global,
    text: &str,
    patterns: &str,
    out: &mut String,
) -> Result<(), AllocError> {
    let patterns = patterns.replace(alloc, "_", " ")?;
    for pattern in patterns.as_str().split(';') {
        let count = count_of(text, pattern);
        write!(out, "{count} of {pattern}\n")?;
    }
    Ok(())
}

//! Words.
use ledger_terms::{ListOf, Text};

/// Words, without the program's name.
pub type WordList = ListOf<Text>;

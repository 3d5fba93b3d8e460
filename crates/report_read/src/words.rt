//! The words of a line.
use crate::expected::Expected;
use crate::hosts::Hosts;
use crate::lane::Lane;
use ledger_terms::Name;

/// The words of a line that are left, with one blank between them.
#[derive(Drop)]
pub(crate) struct Words<'t> {
    rest: Option<&'t str>,
}

impl<'t> Words<'t> {
    /// All words of a line.
    pub(crate) fn of(line: &'t str) -> Words<'t> {
        Words { rest: Some(line) }
    }

    /// Takes the next word. None: no word is left.
    pub(crate) fn next(&mut self) -> Option<&'t str> {
        let rest = self.rest?;
        match rest.split_once(' ') {
            Some((word, others)) => {
                self.rest = Some(others);
                Some(word)
            }
            None => {
                self.rest = None;
                Some(rest)
            }
        }
    }

    /// Takes all words that are left, as one text. None: no word is left.
    pub(crate) fn rest(&mut self) -> Option<&'t str> {
        let rest = self.rest;
        self.rest = None;
        rest
    }

    /// Err where a word is left.
    pub(crate) fn end(&self) -> Result<(), Expected> {
        match self.rest {
            None => Ok(()),
            Some(_) => Err(Expected::EndOfLine),
        }
    }

    /// Takes the next word, which has to be this one; else the Err is `expected`.
    pub(crate) fn literal(&mut self, word: &str, expected: Expected) -> Result<(), Expected> {
        match self.next() {
            Some(found) if found == word => Ok(()),
            _ => Err(expected),
        }
    }

    /// Takes the next word, which has to be a number; else the Err is `expected`.
    pub(crate) fn number(&mut self, expected: Expected) -> Result<u64, Expected> {
        match self.next() {
            Some(word) => number_of(word).ok_or(expected),
            None => Err(expected),
        }
    }

    /// Takes the next word, which has to have the form of a name; else the Err is `expected`.
    pub(crate) fn name(&mut self, expected: Expected) -> Result<&'t str, Expected> {
        match self.next() {
            Some(word) if is_name(word) => Ok(word),
            _ => Err(expected),
        }
    }

    /// Takes the next word, which has to name a participant of the report.
    pub(crate) fn participant(&mut self, hosts: &Hosts<'t>) -> Result<Lane, Expected> {
        match self.next() {
            Some(word) => hosts.lane_of(word).ok_or(Expected::Participant),
            None => Err(Expected::Participant),
        }
    }
}

/// Whether a word has the form of a name.
pub(crate) fn is_name(word: &str) -> bool {
    Name::read(word).is_some()
}

/// The number that a word spells in decimal digits, without a leading zero. None: it spells none, or one of 2^64 or more.
pub(crate) fn number_of(word: &str) -> Option<u64> {
    let bytes = word.as_bytes();
    if !bytes.iter().all(|byte| byte.is_ascii_digit()) {
        return None;
    }
    match bytes {
        [b'0', _, ..] => None,
        _ => word.parse::<u64>().ok(),
    }
}

/// Whether a word is a path: numbers with a point between them.
pub(crate) fn is_path(word: &str) -> bool {
    word.split('.').all(|step| number_of(step).is_some())
}

//! Words of a line.

/// The words of a line that aren't read yet.
#[derive(Drop)]
pub(crate) struct Words<'a> {
    rest: &'a str,
}

impl<'a> Words<'a> {
    pub(crate) fn of(line: &'a str) -> Words<'a> {
        Words { rest: line }
    }

    /// The next word, which is empty after the last.
    pub(crate) fn next(&mut self) -> &'a str {
        match self.rest.split_once(' ') {
            Some((word, rest)) => {
                self.rest = rest;
                word
            }
            None => {
                let word = self.rest;
                self.rest = "";
                word
            }
        }
    }

    /// The next word as a number, which is 0 where it is none.
    pub(crate) fn number(&mut self) -> u64 {
        self.next().parse::<u64>().unwrap_or(0)
    }

    /// All that isn't read yet.
    pub(crate) fn rest(&self) -> &'a str {
        self.rest
    }
}

//! The spelling of actions, instances and values.
use ledger_terms::Name;
use ledger_terms::limits::{MOST_FIELDS, MOST_PARTIES};

/// Digits of an Int of 64 bits.
const MOST_INT_DIGITS: usize = 19;

/// Digits of a hash.
const HASH_DIGITS: usize = 64;

/// Blanks before an action for each level.
const LEVEL_BLANKS: usize = 2;

/// The level of an action's line by the blanks before it; a root is at level 1.
pub(crate) fn level_of(line: &str) -> usize {
    blanks_of(line) / LEVEL_BLANKS
}

fn blanks_of(line: &str) -> usize {
    let bytes = line.as_bytes();
    bytes
        .iter()
        .position(|byte| *byte != b' ')
        .unwrap_or(bytes.len())
}

/// Whether a line is that of an action, with an even number of blanks before it.
pub(crate) fn is_action(line: &str) -> bool {
    let blanks = blanks_of(line);
    let mut scan = Scan::new(line.as_bytes());
    scan.skip(blanks);
    blanks % LEVEL_BLANKS == 0 && scan.action() && scan.is_at_end()
}

/// Whether a text is an instance.
pub(crate) fn is_instance(text: &str) -> bool {
    let mut scan = Scan::new(text.as_bytes());
    scan.instance() && scan.is_at_end()
}

/// Whether a text is an instance with ` as ` and a name behind it.
pub(crate) fn is_instance_as_name(text: &str) -> bool {
    let mut scan = Scan::new(text.as_bytes());
    scan.instance() && scan.literal(b" as ") && scan.name() && scan.is_at_end()
}

/// The bytes that are left to read. Each method with a truth value takes what it is named after from their front, and tells whether it stood there;
/// after `false` some of it may be gone.
#[derive(Drop)]
struct Scan<'b> {
    rest: &'b [u8],
}

impl<'b> Scan<'b> {
    fn new(rest: &'b [u8]) -> Scan<'b> {
        Scan { rest }
    }

    fn is_at_end(&self) -> bool {
        self.rest.is_empty()
    }

    /// Takes so many bytes from the front and gives them. Where there are fewer it takes all and gives none.
    fn skip(&mut self, count: usize) -> &'b [u8] {
        let all = self.rest;
        self.rest = all.get(count..).unwrap_or(&[]);
        all.get(..count).unwrap_or(&[])
    }

    fn byte(&mut self, wanted: u8) -> bool {
        match self.rest.split_first() {
            Some((first, others)) if *first == wanted => {
                self.rest = others;
                true
            }
            _ => false,
        }
    }

    fn literal(&mut self, wanted: &[u8]) -> bool {
        self.rest.starts_with(wanted) && self.skip(wanted.len()).len() == wanted.len()
    }

    fn name(&mut self) -> bool {
        let end = self
            .rest
            .iter()
            .position(|byte| !is_name_byte(*byte))
            .unwrap_or(self.rest.len());
        Name::of_bytes(self.skip(end)).is_some()
    }

    /// Names with a comma between them, or nothing at all.
    fn names(&mut self) -> bool {
        if !self
            .rest
            .first()
            .is_some_and(|byte| byte.is_ascii_alphabetic())
        {
            return true;
        }
        for _ in 0..MOST_PARTIES {
            if !self.name() {
                return false;
            }
            if !self.byte(b',') {
                return true;
            }
        }
        false
    }

    fn int(&mut self) -> bool {
        let is_negative = self.byte(b'-');
        let end = self
            .rest
            .iter()
            .position(|byte| !byte.is_ascii_digit())
            .unwrap_or(self.rest.len());
        let digits = self.skip(end);
        match digits {
            [] => false,
            [b'0'] => !is_negative,
            [b'0', ..] => false,
            _ => digits.len() <= MOST_INT_DIGITS,
        }
    }

    fn text(&mut self) -> bool {
        let end = self
            .rest
            .iter()
            .position(|byte| *byte == b'"')
            .unwrap_or(self.rest.len());
        is_printed(self.skip(end)) && self.byte(b'"')
    }

    fn hash(&mut self) -> bool {
        let digits = self.skip(HASH_DIGITS);
        digits.len() == HASH_DIGITS && digits.iter().all(|byte| is_hex_digit(*byte))
    }

    fn value(&mut self) -> bool {
        match self.rest.first() {
            Some(b'(') => self.literal(b"()"),
            Some(b'"') => self.byte(b'"') && self.text(),
            Some(b'#') => self.byte(b'#') && self.hash(),
            Some(b'[') => self.byte(b'[') && self.names() && self.byte(b']'),
            Some(b'-') => self.int(),
            Some(b'0'..=b'9') => self.int(),
            _ => self.name(),
        }
    }

    /// Values in parentheses with a comma between them.
    fn values(&mut self) -> bool {
        if self.literal(b"()") {
            return true;
        }
        if !self.byte(b'(') {
            return false;
        }
        for _ in 0..MOST_FIELDS {
            if !self.value() {
                return false;
            }
            if !self.byte(b',') {
                return self.byte(b')');
            }
        }
        false
    }

    fn instance(&mut self) -> bool {
        self.name() && self.byte(b'.') && self.name() && self.values()
    }

    fn exercise(&mut self) -> bool {
        self.instance()
            && self.byte(b' ')
            && self.name()
            && self.values()
            && self.literal(b" by ")
            && self.names()
            && self.literal(b" = ")
            && self.value()
    }

    fn action(&mut self) -> bool {
        if self.literal(b"create ") {
            self.instance()
        } else if self.literal(b"consume ") || self.literal(b"exercise ") {
            self.exercise()
        } else {
            self.literal(b"fetch ") && self.instance() && self.literal(b" by ") && self.names()
        }
    }
}

fn is_name_byte(byte: u8) -> bool {
    byte.is_ascii_alphanumeric() || byte == b'_' || byte == b'-'
}

fn is_hex_digit(byte: u8) -> bool {
    byte.is_ascii_digit() || (b'a' <= byte && byte <= b'f')
}

/// Whether the inside of a printed text has no control byte, and each backslash begins `\x` with two digits.
fn is_printed(text: &[u8]) -> bool {
    let mut state = Escape::Outside;
    for byte in text {
        match state.after(*byte) {
            Some(next) => state = next,
            None => return false,
        }
    }
    state == Escape::Outside
}

/// How much of `\x` and its two digits was read.
#[derive(Clone, Copy, PartialEq, Eq)]
enum Escape {
    Outside,
    Backslash,
    NoDigit,
    OneDigit,
}

impl Escape {
    /// The state after one byte more. None: the byte can't stand there.
    fn after(self, byte: u8) -> Option<Escape> {
        match self {
            Escape::Outside if byte == b'\\' => Some(Escape::Backslash),
            Escape::Outside if byte >= 32 && byte != 127 => Some(Escape::Outside),
            Escape::Backslash if byte == b'x' => Some(Escape::NoDigit),
            Escape::NoDigit if is_hex_digit(byte) => Some(Escape::OneDigit),
            Escape::OneDigit if is_hex_digit(byte) => Some(Escape::Outside),
            _ => None,
        }
    }
}

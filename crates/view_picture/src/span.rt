//! Parts of a picture's width.

/// From where to where a part of the picture goes, in units from the left.
#[derive(Clone, Copy)]
pub(crate) struct Span {
    pub left: u32,
    pub right: u32,
}

/// Units between the edge of a box and what stands inside it.
pub(crate) const INSIDE: u32 = 10;

/// Units by which a consequence stands more to the right than its action.
const LEVEL: u32 = 20;

/// How wide a letter of the font of code is, and more than most others are, in units.
const LETTER: u32 = 8;

impl Span {
    /// The part of the width that is left inside a box which goes over this part.
    pub fn inside(&self) -> Span {
        Span {
            left: self.left.saturating_add(INSIDE),
            right: self.right.saturating_sub(INSIDE),
        }
    }

    /// The part of the width that is left for an action so many levels below a view's first action, which stands more to the right.
    pub fn at_level(&self, level: u32) -> Span {
        Span {
            left: self.left.saturating_add(level.saturating_mul(LEVEL)),
            right: self.right,
        }
    }

    /// How wide the part is, in units.
    pub fn width(&self) -> u32 {
        self.right.saturating_sub(self.left)
    }
}

/// How wide a text of so many letters is, in units.
pub(crate) fn width_of(letters: u32) -> u32 {
    letters.saturating_mul(LETTER)
}

/// How many letters of the font of code have room in a width.
pub(crate) fn letters_in(width: u32) -> u32 {
    width / LETTER
}

/// The greatest number of letters that anything is made wide for.
const MOST_LETTERS: usize = 1_000;

/// How many letters an ASCII text has, up to the greatest number that anything is made wide for.
pub(crate) fn letters_of(text: &str) -> u32 {
    text.len().min(MOST_LETTERS) as u32
}

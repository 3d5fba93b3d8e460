//! Lines of text.
use crate::span::letters_in;
use ledger_terms::Text;
use svg_text::Point;

/// How wide a letter of the other fonts is, in units: more than most are.
const TEXT_LETTER: u32 = 7;

/// What a line says.
#[derive(Clone, Copy)]
pub enum LineKind {
    /// What the picture shows.
    Title,
    /// Which request follows.
    Request,
    /// More of what stands above.
    Detail,
    /// Which view a box is, with its informees and confirmers.
    View,
    /// An action.
    Action,
    /// A hash in place of what isn't shown.
    Blinded,
    /// From whom views are withheld.
    Withheld,
}

impl LineKind {
    /// How many letters of a line of this kind have room in a width, which is in units.
    pub(crate) fn letters_in(self, width: u32) -> u32 {
        match self {
            LineKind::Action | LineKind::Blinded => letters_in(width),
            LineKind::Title
            | LineKind::Request
            | LineKind::Detail
            | LineKind::View
            | LineKind::Withheld => width / TEXT_LETTER,
        }
    }
}

/// A line of text, with the point at its foot where it begins, and for how many letters there is room.
#[derive(Drop)]
pub struct Line {
    pub kind: LineKind,
    pub at: Point,
    pub letters: u32,
    pub text: Text,
}

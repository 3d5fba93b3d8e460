//! Strokes of lines.
ghost use Rattle.std.specs.Prelude.{◌≡◌};
ghost use Rattle.svg_text.specs.Words.{dash_word};

use crate::tone::Tone;

/// How a line is drawn along.
#[derive(Clone, Copy, PartialEq, Eq)]
pub enum Dash {
    /// Without a gap.
    Solid,
    /// In dashes.
    Dashed,
    /// Without a gap, and thinner.
    Thin,
}

impl Dash {
    /// The class of the style sheet for it.
    pub(crate) fn word(&self) -> &'static str
        ensures { result.now ≡ dash_word self.now }
    {
        match self {
            Dash::Solid => "solid",
            Dash::Dashed => "dashed",
            Dash::Thin => "thin",
        }
    }
}

/// How a line looks.
#[derive(Clone, Copy, PartialEq, Eq)]
pub struct Stroke {
    pub tone: Tone,
    pub dash: Dash,
}

//! Colours by what they say.
ghost use Rattle.std.specs.Prelude.{◌≡◌};
ghost use Rattle.svg_text.specs.Words.{tone_word};

/// What a colour says. A tone has one colour on light pages and one on dark pages, each with a contrast of 4.5 to 1 or more to the page.
#[derive(Clone, Copy, PartialEq, Eq)]
pub enum Tone {
    /// The main text and its lines.
    Ink,
    /// What is less important than that, as a hint beside it.
    Quiet,
    /// Approved.
    Good,
    /// Rejected.
    Bad,
    /// Undecided, timed out or expired.
    Waiting,
    /// What belongs to one participant.
    Accent,
    /// The colour of the page itself, for text on a filled shape.
    Paper,
}

impl Tone {
    /// The class of the style sheet for it.
    pub(crate) fn word(&self) -> &'static str
        ensures { result.now ≡ tone_word self.now }
    {
        match self {
            Tone::Ink => "ink",
            Tone::Quiet => "quiet",
            Tone::Good => "good",
            Tone::Bad => "bad",
            Tone::Waiting => "waiting",
            Tone::Accent => "accent",
            Tone::Paper => "paper",
        }
    }
}

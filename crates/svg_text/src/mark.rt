//! Marks, whose shape says what their colour says, for those who can't tell colours.
ghost use Rattle.std.specs.Prelude.{◌≡◌};
ghost use Rattle.svg_text.specs.Marks.{mark_path, mark_tone};

use crate::tone::Tone;

/// A small sign, 14 units wide and high.
#[derive(Clone, Copy, PartialEq, Eq)]
pub enum Mark {
    /// A tick.
    Approved,
    /// A cross.
    Rejected,
    /// The hands of a clock.
    TimedOut,
    /// A bar across a circle.
    Expired,
    /// Three dots.
    Undecided,
}

impl Mark {
    /// The tone in which the mark is drawn: good, bad or waiting.
    pub fn tone(&self) -> Tone
        ensures { result ≡ mark_tone self.now }
    {
        match self {
            Mark::Approved => Tone::Good,
            Mark::Rejected => Tone::Bad,
            Mark::TimedOut | Mark::Expired | Mark::Undecided => Tone::Waiting,
        }
    }

    /// The path of the mark round the point 0 0.
    pub(crate) fn path(&self) -> &'static str
        ensures { result.now ≡ mark_path self.now }
    {
        match self {
            Mark::Approved => "M-6 0L-2 4L6 -5",
            Mark::Rejected => "M-5 -5L5 5M5 -5L-5 5",
            Mark::TimedOut => "M-6 0A6 6 0 1 0 6 0A6 6 0 1 0 -6 0M0 -4L0 0L3 2",
            Mark::Expired => "M-6 0A6 6 0 1 0 6 0A6 6 0 1 0 -6 0M-4 4L4 -4",
            Mark::Undecided => "M-5 -1L-5 1M0 -1L0 1M5 -1L5 1",
        }
    }
}

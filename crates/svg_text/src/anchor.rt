//! Anchors of texts.
ghost use Rattle.std.specs.Prelude.{◌≡◌};
ghost use Rattle.svg_text.specs.Words.{anchor_word};

/// Which part of a text stands at its point.
#[derive(Clone, Copy, PartialEq, Eq)]
pub enum Anchor {
    /// The text begins there.
    Start,
    /// Its middle is there.
    Middle,
    /// It ends there.
    End,
}

impl Anchor {
    /// The class of the style sheet for it.
    pub(crate) fn word(&self) -> &'static str
        ensures { result.now ≡ anchor_word self.now }
    {
        match self {
            Anchor::Start => "start",
            Anchor::Middle => "middle",
            Anchor::End => "end",
        }
    }
}

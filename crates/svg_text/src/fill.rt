//! Fills of shapes.
ghost use Rattle.std.specs.Prelude.{◌≡◌};
ghost use Rattle.svg_text.specs.Words.{fill_word};

/// How the inside of a shape is filled.
#[derive(Clone, Copy, PartialEq, Eq)]
pub enum Fill {
    /// Not at all.
    Clear,
    /// With the colour of the page.
    Page,
    /// With a little of the tone.
    Tint,
    /// With the tone.
    Full,
}

impl Fill {
    /// The class of the style sheet for it.
    pub(crate) fn word(&self) -> &'static str
        ensures { result.now ≡ fill_word self.now }
    {
        match self {
            Fill::Clear => "clear",
            Fill::Page => "page",
            Fill::Tint => "tint",
            Fill::Full => "full",
        }
    }
}

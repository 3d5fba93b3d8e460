//! Fonts.
ghost use Rattle.std.specs.Prelude.{◌≡◌};
ghost use Rattle.svg_text.specs.Words.{font_word};

/// How a text is set.
#[derive(Clone, Copy, PartialEq, Eq)]
pub enum Font {
    /// 14 units high.
    Plain,
    /// 14 units high, and bold.
    Strong,
    /// 13 units high, and each letter is 7.8 units wide.
    Code,
    /// 12 units high.
    Small,
    /// 20 units high, and bold.
    Title,
}

impl Font {
    /// The class of the style sheet for it.
    pub(crate) fn word(&self) -> &'static str
        ensures { result.now ≡ font_word self.now }
    {
        match self {
            Font::Plain => "plain",
            Font::Strong => "strong",
            Font::Code => "code",
            Font::Small => "small",
            Font::Title => "title",
        }
    }
}

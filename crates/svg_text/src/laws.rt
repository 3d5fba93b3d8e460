//! Laws of the escape.
ghost use Rattle.std.specs.Prelude.{◌≡◌, IsTrue, false};
ghost use Rattle.std.specs.List.{list_any};
ghost use Rattle.svg_text.specs.Escape.{escaped};
ghost use Rattle.svg_text.specs.ReadBack.{ampersands_begin_entities, is_markup, unescaped};

/// What is escaped has no `<`, no `>` and no quote, so it opens and closes no tag and ends no attribute.
pub fn escaped_text_is_plain(_text: &str)
    ensures { list_any is_markup (escaped _text.now) ≡ false }
{}

/// Each ampersand of what is escaped begins one of the five entities of XML.
pub fn escaped_ampersands_begin_entities(_text: &str)
    ensures { IsTrue (ampersands_begin_entities (escaped _text.now)) }
{}

/// What is escaped reads back as the text.
pub fn escaped_text_reads_back(_text: &str)
    ensures { unescaped (escaped _text.now) ≡ _text.now }
{}

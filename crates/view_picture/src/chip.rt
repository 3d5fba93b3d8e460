//! Chips.
use crate::part::Part;
use ledger_terms::Name;
use svg_text::Frame;

/// A small sign in the box of a view: a participant that sees the view, or is to see it where it is withheld, and what the participant does with it.
#[derive(Drop)]
pub struct Chip {
    pub name: Name,
    pub part: Part,
    pub is_withheld: bool,
    pub frame: Frame,
}

/// What a chip says of a participant beside its name.
pub(crate) fn chip_word(part: Part, is_withheld: bool) -> &'static str {
    if is_withheld { "withheld" } else { part.word() }
}

//! What a participant does with a view.

/// What a participant does with a view that it sees.
#[derive(Clone, Copy)]
pub enum Part {
    /// The participant confirms the view.
    Confirms,
    /// The participant confirms for a party that is told of the view, and for none of the view's confirmers.
    Sees,
    /// The participant hosts the parties that are told of the view only to observe.
    Observes,
}

impl Part {
    /// What a chip says of the participant beside its name.
    pub(crate) fn word(self) -> &'static str {
        match self {
            Part::Confirms => "confirms",
            Part::Sees => "sees",
            Part::Observes => "observes",
        }
    }
}

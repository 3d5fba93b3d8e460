//! What an envelope lacks.

/// Why nothing is opened to a participant that is to see views of a request.
#[derive(Clone, Copy)]
pub(crate) enum Lack {
    /// There is no envelope to it.
    NoEnvelope,
    /// Its envelope is of another tree than the mediator's.
    OtherTree,
    /// Its envelope is of the mediator's tree, and doesn't open all that it is to see.
    Incomplete,
}

impl Lack {
    /// What a picture says of the lack, behind `withheld from P1: `.
    pub fn words(self) -> &'static str {
        match self {
            Lack::NoEnvelope => "no envelope",
            Lack::OtherTree => "an envelope of another tree",
            Lack::Incomplete => "an incomplete envelope",
        }
    }
}

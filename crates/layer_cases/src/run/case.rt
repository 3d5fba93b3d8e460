//! Cases over a source that never fails.

/// A case: its name, what its word wants beside, the words with commas between them, and what the source gives.
#[derive(Clone, Copy)]
pub(crate) struct Case<'a> {
    pub(crate) name: &'a str,
    pub(crate) given: &'a str,
    pub(crate) words: &'a str,
    pub(crate) source: &'a str,
}

impl<'a> Case<'a> {
    /// The case that the words behind its first one spell. None: they are too few.
    pub(crate) fn read(spelled: &'a str) -> Option<Case<'a>> {
        let (name, rest) = spelled.split_once(' ')?;
        let (given, rest) = rest.split_once(' ')?;
        let (words, source) = rest.split_once(' ')?;
        Some(Case {
            name,
            given,
            words,
            source,
        })
    }
}

//! Cases over a source and a sink that fail.

/// A case: its name, the calls at which the source and the sink fail, the words with commas between them, and what the source
/// gives.
#[derive(Clone, Copy)]
pub(crate) struct FailingCase<'a> {
    pub(crate) name: &'a str,
    pub(crate) take: u64,
    pub(crate) put: u64,
    pub(crate) words: &'a str,
    pub(crate) source: &'a str,
}

impl<'a> FailingCase<'a> {
    /// The case that the words behind its first one spell; a call that is no number is 0. None: they are too few.
    pub(crate) fn read(spelled: &'a str) -> Option<FailingCase<'a>> {
        let (name, rest) = spelled.split_once(' ')?;
        let (take, rest) = rest.split_once(' ')?;
        let (put, rest) = rest.split_once(' ')?;
        let (words, source) = rest.split_once(' ')?;
        Some(FailingCase {
            name,
            take: take.parse().unwrap_or(0),
            put: put.parse().unwrap_or(0),
            words,
            source,
        })
    }
}

//! Views that are found among those that are opened.
use ledger_terms::PartySet;

/// What a view states of its informees and confirmers, with the numbers of the actions in its core.
#[derive(Drop)]
pub(crate) struct FoundView<'a> {
    pub(crate) informees: &'a PartySet,
    pub(crate) confirmers: &'a PartySet,
    pub(crate) core: Vec<usize>,
}

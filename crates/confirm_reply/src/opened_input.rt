//! What a view that is opened is checked by.
use crate::id_facts::IdFactsList;
use crate::setup::Setup;
use ledger_terms::ParticipantId;
use view_split::OpenedTree;

/// What a check goes by where something is opened, with that.
#[derive(Drop)]
pub(crate) struct OpenedInput<'a> {
    pub(crate) setup: &'a Setup,
    pub(crate) me: ParticipantId,
    pub(crate) sender: ParticipantId,
    pub(crate) time: u64,
    pub(crate) tree: &'a OpenedTree,
    pub(crate) facts: &'a IdFactsList,
}

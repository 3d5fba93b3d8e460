//! Who sees the views of a request.
use crate::withheld::WithheldList;
use ledger_terms::{ParticipantId, Topology};

/// For whom chips stand in a request's views: the participants with the parties that they host, and those of them from whom views of the request are
/// withheld.
#[derive(Clone, Copy)]
pub(crate) struct Audience<'a> {
    pub topology: &'a Topology,
    pub withheld: &'a WithheldList,
}

impl Audience<'_> {
    /// Whether the views of the request that this participant is to see are withheld from it.
    pub fn lacks(&self, at: ParticipantId) -> bool {
        self.withheld
            .as_slice()
            .iter()
            .any(|one| one.participant == at)
    }
}

//! From whom the views of a request are withheld.
use crate::lack::Lack;
use ledger_terms::{ListOf, ParticipantId, Path, PathList};

/// A participant that is to see views, by what the mediator is told, and has no complete envelope, so that nothing is opened to it: `seen` are the
/// paths of those views.
#[derive(Drop)]
pub(crate) struct Withheld {
    pub participant: ParticipantId,
    pub seen: PathList,
    pub lack: Lack,
}

/// The participants from whom views of a request are withheld, in the order of the topology.
pub(crate) type WithheldList = ListOf<Withheld>;

impl Withheld {
    /// Whether the participant is to see the view at a path.
    pub fn sees(&self, path: &Path) -> bool {
        self.seen.as_slice().iter().any(|seen| *seen == *path)
    }
}

//! What an entry of the log brings to one participant.
use canton_model::{SharedBytes, Verdict};
use ledger_terms::{Hash, Name, ParticipantId, PathList};

/// A request of which the participant is a recipient, with the hash of its tree (`root`), the paths of the views that it sees and of those that it
/// confirms, and its envelope where there is one; the verdict on such a request; or nothing.
#[derive(Drop)]
pub enum ItemWhat {
    Nothing,
    Request {
        sender: ParticipantId,
        command: Name,
        root: Hash,
        seen: PathList,
        confirmed: PathList,
        envelope: Option<SharedBytes>,
    },
    Verdict(Verdict),
}

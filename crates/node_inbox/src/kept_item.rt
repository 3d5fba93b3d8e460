//! The items of an inbox.
use crate::boxed_request::BoxedRequest;
use crate::kept_offer::KeptOffer;
use canton_model::{SharedBytes, Verdict};
use confirm_reply::IdFactsList;
use inbox_registry::Change;
use ledger_terms::{Hash, Name, ParticipantId, PathList};

/// What a participant keeps of a request of which it is a recipient: who sent it, the name that the sender gave the command, the hash
/// of the mediator's tree, the paths of the views that the participant sees and of those that it confirms, its envelope, where there
/// is one, and what that offers. Beside these are the changes among the authentic actions in what is opened, so that nothing is read or
/// hashed again, and what it knew of the contracts in that when it had read the request.
#[derive(Drop)]
pub struct KeptRequest {
    pub sender: ParticipantId,
    pub command: Name,
    pub root: Hash,
    pub seen: PathList,
    pub confirmed: PathList,
    pub envelope: Option<SharedBytes>,
    pub offer: KeptOffer,
    pub changes: Vec<Change>,
    pub facts: IdFactsList,
}

/// What an entry is to the participant: a request of which it is a recipient, a verdict on such a request, or nothing.
#[derive(Drop)]
pub enum KeptContent {
    Received(BoxedRequest),
    Told(Verdict),
    Nothing,
}

/// What a participant has of one entry of the log. `time` is the entry's, in microseconds.
#[derive(Drop)]
pub struct KeptItem {
    pub time: u64,
    pub content: KeptContent,
}

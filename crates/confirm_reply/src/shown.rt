//! What a participant is shown of a request.
use crate::shared_tree::SharedTree;
use canton_model::Reason;

/// What is opened of a request to a participant, or where nothing is, why it rejects each view.
#[derive(Drop)]
pub enum Shown {
    Fixed(Reason),
    Open(SharedTree),
}

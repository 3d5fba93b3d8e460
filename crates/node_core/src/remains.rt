//! What a participant kept.
use crate::duties::Duties;
use node_inbox::InboxRemains;

/// What a participant kept, when nobody asks it any more. It borrows nothing, so it is dropped, or forgotten, when whoever has it says.
#[derive(Drop)]
pub struct NodeRemains {
    inbox: InboxRemains,
    duties: Duties,
}

impl NodeRemains {
    /// Puts together what a participant kept, of its parts.
    pub(crate) fn new(inbox: InboxRemains, duties: Duties) -> NodeRemains {
        NodeRemains { inbox, duties }
    }
}

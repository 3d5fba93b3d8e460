//! Who tells what it knew.
use ledger_terms::{ListOf, Name, ParticipantId};
use page_data::{Course, Knowledge, RequestState};

/// A participant of whom a page tells, with what it learnt of the log.
#[derive(Drop)]
pub(crate) struct Teller {
    pub me: ParticipantId,
    pub name: Name,
    pub course: Course,
}

/// Participants of whom a page tells, in the order of the topology.
pub(crate) type TellerList = ListOf<Teller>;

/// What is known of the request at a place of the log. None: the participant hasn't received it.
pub(crate) fn request_in(knowledge: &Knowledge, place: u64) -> Option<RequestState> {
    for request in knowledge.requests.as_slice() {
        if request.place == place {
            return Some(*request);
        }
    }
    None
}

impl Teller {
    /// Whether the participant received the request at this place of the page's entries.
    pub fn received(&self, place: u64) -> bool {
        match self.course.states.as_slice().last() {
            Some(knowledge) => request_in(knowledge, place).is_some(),
            None => false,
        }
    }
}

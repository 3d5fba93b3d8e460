//! What a page tells.
use crate::teller::TellerList;
use canton_model::{Entry, Message, Request};
use confirm_reply::Setup;
use ledger_terms::{Name, ParticipantId};
use page_data::OpenRequestLists;
use std::alloc::Global;

/// What a page tells: how many entries the log has, the first of them, what participants learnt of these, and for whom the mediator
/// waited. Where the page is for one participant, `reader` is that one, and it tells of nobody else.
#[derive(Clone, Copy)]
pub(crate) struct Story<'p> {
    pub alloc: Global,
    pub setup: &'p Setup,
    pub entries: u64,
    pub log: &'p [Entry],
    pub tellers: &'p TellerList,
    pub waiting: &'p OpenRequestLists,
    pub reader: Option<ParticipantId>,
}

impl<'p> Story<'p> {
    /// The last place of the page: that behind its last entry, so the number of its entries.
    pub fn last(&self) -> u64 {
        self.log.len() as u64
    }

    /// Whether the log goes on behind the page's entries.
    pub fn is_cut(&self) -> bool {
        self.entries > self.last()
    }

    /// The name of a participant. None: the topology has no such participant.
    pub fn name(&self, at: ParticipantId) -> Option<&Name> {
        match self.setup.topology.host(at) {
            Some(host) => Some(&host.name),
            None => None,
        }
    }

    /// The request that stands at a place of the page's entries. None: another entry stands there, or none.
    pub fn request(&self, place: u64) -> Option<&'p Request> {
        let entry = self.log.get(place as usize)?;
        match &entry.message {
            Message::Request(request) => Some(request),
            _ => None,
        }
    }

    /// Whether the page tells of the request at a place: somebody of whom it tells received it.
    pub fn is_told(&self, place: u64) -> bool {
        self.tellers
            .as_slice()
            .iter()
            .any(|teller| teller.received(place))
    }

    /// Whether the page tells of this participant: the page of all does, and one for a reader of the reader alone.
    pub fn tells_of(&self, at: ParticipantId) -> bool {
        match self.reader {
            Some(me) => me == at,
            None => true,
        }
    }
}

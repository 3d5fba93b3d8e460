//! Requests with what they disclose.
use crate::disclosure::Disclosure;
use canton_model::{EntryList, Message, Request};
use ledger_terms::{ListOf, ParticipantId, Topology};
use std::alloc::{AllocError, Global};

/// The request at a place, and what is drawn of it: all that its messages disclose, or what it discloses to one participant. None: it discloses
/// nothing.
#[derive(Drop)]
pub(crate) struct DisclosedRequest<'r> {
    pub place: u64,
    pub request: &'r Request,
    pub disclosure: Option<Disclosure>,
}

impl<'r> DisclosedRequest<'r> {
    fn of(
        alloc: Global,
        topology: &Topology,
        place: u64,
        request: &'r Request,
        reader: Option<&ParticipantId>,
    ) -> Result<DisclosedRequest<'r>, AllocError> {
        let disclosure = match reader {
            Some(me) => Disclosure::to(alloc, topology, request, *me)?,
            None => Disclosure::of_all(alloc, topology, request)?,
        };
        Ok(DisclosedRequest {
            place,
            request,
            disclosure,
        })
    }

    /// Whether views of the request are withheld from somebody of whom it is drawn. False where it discloses nothing.
    pub fn has_withheld(&self) -> bool {
        match &self.disclosure {
            Some(disclosure) => !disclosure.withheld.is_empty(),
            None => false,
        }
    }
}

/// Requests in order of place.
pub(crate) type DisclosedRequestList<'r> = ListOf<DisclosedRequest<'r>>;

/// The requests among the first `most` entries of a log, with all that they disclose, or with what they disclose to `reader`.
pub(crate) fn disclosed_requests<'r>(
    alloc: Global,
    topology: &Topology,
    log: &'r EntryList,
    most: usize,
    reader: Option<&ParticipantId>,
) -> Result<DisclosedRequestList<'r>, AllocError> {
    let mut requests = DisclosedRequestList::new(alloc);
    for (place, entry) in (0..most as u64).zip(log.as_slice()) {
        if let Message::Request(request) = &entry.message {
            let disclosed = DisclosedRequest::of(alloc, topology, place, request, reader)?;
            requests.push(disclosed)?;
        }
    }
    Ok(requests)
}

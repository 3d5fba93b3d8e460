//! Requests on which the mediator has given no verdict.
use ledger_terms::{ListOf, ParticipantIdList};

/// A request on which no verdict stands in the log: its place, until when responses count, and who of those that are asked hasn't
/// responded.
#[derive(Drop)]
pub struct OpenRequest {
    pub place: u64,
    pub deadline: u64,
    pub missing: ParticipantIdList,
}

/// Requests without a verdict, in order of place.
pub type OpenRequestList = ListOf<OpenRequest>;

/// The requests without a verdict at one place after another.
pub type OpenRequestLists = ListOf<OpenRequestList>;

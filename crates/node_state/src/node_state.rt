//! What a participant keeps, apart from it.
use crate::item::ItemList;
use canton_model::Response;
use ledger_terms::{ActiveRowList, HashList, ListOf, ParticipantId, U64List};

/// Responses.
pub type ResponseList = ListOf<Response>;

/// What a participant keeps. Of the requests below its base it keeps only the contracts which authentic actions of approved ones, as they were
/// opened to it, create or consume: `active` and `gone`.
#[derive(Drop)]
pub struct NodeState {
    /// Which participant it is.
    pub me: ParticipantId,
    /// The base: requests below this place are forgotten.
    pub base: u64,
    /// The time of the entry before the base, in microseconds, or 0.
    pub base_time: u64,
    /// Whether it is paused.
    pub paused: bool,
    /// The contracts that are created below the base and not consumed there, with a hosted stakeholder or without one, in order of
    /// creation.
    pub active: ActiveRowList,
    /// The ids of all other contracts that are created or consumed below the base, ascending.
    pub gone: HashList,
    /// The inbox from the base on.
    pub items: ItemList,
    /// The responses that it hasn't sent.
    pub outbox: ResponseList,
    /// The places at or after the base whose job was finished and not put back since, ascending.
    pub done: U64List,
}

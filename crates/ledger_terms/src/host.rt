//! A participant of a topology.
use crate::list::ListOf;
use crate::name::{Name, NameList};
use crate::party_set::PartySet;

/// A participant with the parties that it hosts and confirms for, those that it hosts only to observe, and the packages that it has
/// vetted.
#[derive(Drop)]
pub struct Host {
    pub name: Name,
    pub parties: PartySet,
    pub observing: PartySet,
    pub vetted: NameList,
}

/// Participants, in the order of the topology.
pub type HostList = ListOf<Host>;

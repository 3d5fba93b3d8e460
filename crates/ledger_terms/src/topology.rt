//! The participants of a synchroniser and whom they host.
ghost use Rattle.std.specs.Prelude.{◌≡◌, ◌≤◌, length, option_copied, slice_get};
ghost use Rattle.std.specs.List.{list_any};
ghost use Rattle.ledger_terms.specs.Hosting.{host_of, hosts_at, confirms_at};

use crate::host::{Host, HostList};
use crate::name::Name;
use crate::params::Params;
use crate::participant_id::ParticipantId;
use crate::party_set::PartySet;

/// The participants, in order, and the times.
#[derive(Drop)]
pub struct Topology {
    pub hosts: HostList,
    pub params: Params,
}

impl Topology {
    /// The participant that confirms for the party: the first one with it among its `parties`. None where nobody does.
    pub fn host_of(&self, party: Name) -> Option<ParticipantId>
        requires { length self.now.hosts ≤ 256 }
        ensures { result ≡ host_of self.now.hosts party }
    {
        let mut at: usize = 0;
        for host in self.hosts.as_slice() {
            if host.parties.contains(party) {
                return Some(ParticipantId(at as u8));
            }
            at += 1;
        }
        None
    }

    /// The participant at an index, and None where there is none.
    pub fn host(&self, at: ParticipantId) -> Option<&Host>
        ensures { option_copied result ≡ slice_get self.now.hosts at }
    {
        self.hosts.get(at.0 as usize)
    }

    /// Whether the participant at an index hosts the party, to confirm for it or only to observe. False where there is no such participant.
    pub fn hosts(&self, at: ParticipantId, party: Name) -> bool
        ensures { result ≡ hosts_at self.now.hosts at party }
    {
        match self.host(at) {
            Some(host) => host.parties.contains(party) || host.observing.contains(party),
            None => false,
        }
    }

    /// Whether the participant at an index hosts one of the parties, to confirm for it or only to observe. False where there is no such participant.
    pub fn hosts_any(&self, at: ParticipantId, parties: &PartySet) -> bool
        ensures { result ≡ list_any (hosts_at self.now.hosts at) parties.now }
    {
        parties
            .as_slice()
            .iter()
            .any(|party| self.hosts(at, *party))
    }

    /// Whether the participant at an index confirms for the party. False where there is no such participant.
    pub fn confirms(&self, at: ParticipantId, party: Name) -> bool
        ensures { result ≡ confirms_at self.now.hosts at party }
    {
        match self.host(at) {
            Some(host) => host.parties.contains(party),
            None => false,
        }
    }

    /// Whether the participant at an index confirms for one of the parties. False where there is no such participant.
    pub fn confirms_any(&self, at: ParticipantId, parties: &PartySet) -> bool
        ensures { result ≡ list_any (confirms_at self.now.hosts at) parties.now }
    {
        parties
            .as_slice()
            .iter()
            .any(|party| self.confirms(at, *party))
    }
}

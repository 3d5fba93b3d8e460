//! The participants. `alloc` gives the memory, and the only error is want of it.
ghost use Rattle.std.specs.Prelude.{◌≡◌, codes, ◌∷◌, [], IfOk};
ghost use Rattle.load_gen.specs.Scripts.{vetted_packages, host_at, hosts, params};

use crate::choices::iou_name;
use crate::names::{participant_at, party_at};
use lang_eval::note_name;
use ledger_terms::{Host, HostList, NameList, Params, PartySet, Topology};
use std::alloc::{AllocError, Global};

/// Participants, each with one party.
pub(crate) const PARTICIPANTS: u8 = 4;

/// The times of a script that doesn't give them, in microseconds.
pub(crate) const RESPONSE_TIMEOUT: u64 = 30_000_000;

pub(crate) const REACTION_TIMEOUT: u64 = 30_000_000;

pub(crate) const SKEW: u64 = 60_000_000;

fn vetted_packages(alloc: Global) -> Result<NameList, AllocError>
    ensures { IfOk result (λ names. names ≡ vetted_packages) }
{
    let mut names = NameList::new(alloc);
    names.push(note_name())?;
    names.push(iou_name())?;
    Ok(names)
}

fn host_at(alloc: Global, place: u8) -> Result<Host, AllocError>
    ensures { IfOk result (λ host. host ≡ host_at place) }
{
    let mut parties = PartySet::new(alloc);
    parties.insert(party_at(alloc, place)?)?;
    Ok(Host {
        name: participant_at(alloc, place)?,
        parties,
        observing: PartySet::new(alloc),
        vetted: vetted_packages(alloc)?,
    })
}

fn hosts(alloc: Global) -> Result<HostList, AllocError>
    ensures { IfOk result (λ list. list ≡ hosts) }
{
    let mut hosts = HostList::new(alloc);
    'places: for place in 0..PARTICIPANTS {
        hosts.push(host_at(alloc, place)?)?;
    }
    Ok(hosts)
}

/// The topology of a generated script: four participants, each of which confirms for one party and has vetted all packages, and the times that a script
/// has that gives none.
pub fn generated_topology(alloc: Global) -> Result<Topology, AllocError>
    ensures { IfOk result (λ t. t ≡ record { hosts = hosts; params = params }) }
{
    let hosts = hosts(alloc)?;
    Ok(Topology {
        hosts,
        params: Params {
            response_timeout: RESPONSE_TIMEOUT,
            reaction_timeout: REACTION_TIMEOUT,
            skew: SKEW,
        },
    })
}

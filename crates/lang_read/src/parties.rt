//! Names of parties. `alloc` gives the memory for what is read; where memory is wanting, also for the place in a fault, the fault is Memory.
ghost use Rattle.std.specs.Prelude.{◌≡◌};
ghost use Rattle.serde_json.specs.View.{view};
ghost use Rattle.ledger_terms.specs.Answers.{Follows};
ghost use Rattle.lang_read.specs.Parties.{is_hosted, party_of, parties_of};

use json_walk::{Place, WalkFault, read_list, read_name};
use ledger_terms::{Host, Name, PartySet, Text, Topology};
use serde_json::Value;
use std::alloc::Global;

/// Whether one of the participants confirms for the party, which makes it a party of the topology; to observe it isn't enough.
pub fn is_hosted(hosts: &[Host], party: Name) -> bool
    ensures { result ≡ is_hosted hosts.now party }
{
    hosts.iter().any(|host| host.parties.contains(party))
}

/// The name of a party of the topology that the value at the place `at` spells: Shape where it is no name, Unknown where no participant confirms
/// for that party.
#[tactic(auto, unfolding(crate::specs::Parties::party_of))]
pub fn read_party(
    alloc: Global,
    value: &Value,
    at: &Place,
    topology: &Topology,
) -> Result<Name, WalkFault>
    ensures { Follows WalkFault.Memory result (party_of topology.now.hosts at.now (view value.now)) }
{
    let name = read_name(value, at)?;
    if !is_hosted(topology.hosts.as_slice(), name) {
        return Err(WalkFault::Unknown {
            path: at.pointer()?,
            name: Text::of(alloc, name.as_str())?,
        });
    }
    Ok(name)
}

/// The set of the parties of the topology whose names the list at the place `at` spells; a name may stand there more than once. Shape where it is
/// no list of names, Unknown at the first name of no such party.
#[tactic(auto, unfolding(crate::specs::Parties::parties_of))]
pub fn read_parties(
    alloc: Global,
    value: &Value,
    at: &Place,
    topology: &Topology,
) -> Result<PartySet, WalkFault>
    ensures { Follows WalkFault.Memory result (parties_of topology.now.hosts at.now (view value.now)) }
{
    let names = read_list(
        alloc,
        value,
        at,
        |item, here| read_party(alloc, item, here, topology),
    )?;
    Ok(PartySet::of(alloc, &names)?)
}

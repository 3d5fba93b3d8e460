//! Names of participants. `alloc` gives the memory for what is read; where memory is wanting, also for the place in a fault, the fault is Memory.
ghost use Rattle.std.specs.Prelude.{◌≡◌, ◌≤◌, length};
ghost use Rattle.serde_json.specs.View.{view};
ghost use Rattle.ledger_terms.specs.Answers.{Follows};
ghost use Rattle.script_read.specs.Participants.{participant_named, participant_of, participant_member, participant_in};

use json_walk::{Place, WalkFault, member, read_name};
use ledger_terms::{Host, Name, ParticipantId, Text, Topology};
use serde_json::Value;
use std::alloc::Global;

fn participant_named(hosts: &[Host], name: Name) -> Option<ParticipantId>
    requires { length hosts.now ≤ 256 }
    ensures { result ≡ participant_named hosts.now name }
{
    let mut at: usize = 0;
    for host in hosts {
        if host.name == name {
            return Some(ParticipantId(at as u8));
        }
        at += 1;
    }
    None
}

/// The participant of the topology whose name the value at the place `at` spells, by its index: Shape where it is no name, Unknown where no participant
/// has it.
#[tactic(auto, unfolding(crate::specs::Participants::participant_of))]
pub fn read_participant(
    alloc: Global,
    value: &Value,
    at: &Place,
    topology: &Topology,
) -> Result<ParticipantId, WalkFault>
    requires { length topology.now.hosts ≤ 256 }
    ensures { Follows WalkFault.Memory result (participant_of topology.now.hosts at.now (view value.now)) }
{
    let name = read_name(value, at)?;
    let Some(participant) = participant_named(topology.hosts.as_slice(), name) else {
        return Err(WalkFault::Unknown {
            path: at.pointer()?,
            name: Text::of(alloc, name.as_str())?,
        });
    };
    Ok(participant)
}

#[tactic(auto, unfolding(crate::specs::Participants::participant_member))]
fn participant_member(
    alloc: Global,
    value: &Value,
    at: &Place,
    name: &str,
    topology: &Topology,
) -> Result<ParticipantId, WalkFault>
    requires { length topology.now.hosts ≤ 256 }
    ensures { Follows WalkFault.Memory result (participant_member topology.now.hosts at.now name.now (view value.now)) }
{
    let found = member(value, at, name)?;
    read_participant(alloc, found, &at.member(name), topology)
}

/// The participant whose name stands in the member `participant` of the object `value` at the place `at`: Shape where it is absent or no name,
/// Unknown where no participant of the topology has it.
#[tactic(auto, unfolding(crate::specs::Participants::participant_in))]
pub fn participant_in(
    alloc: Global,
    value: &Value,
    at: &Place,
    topology: &Topology,
) -> Result<ParticipantId, WalkFault>
    requires { length topology.now.hosts ≤ 256 }
    ensures { Follows WalkFault.Memory result (participant_in topology.now.hosts at.now (view value.now)) }
{
    participant_member(alloc, value, at, "participant", topology)
}

//! What a submission asks for. `topology` has the participants and the parties that a text may name; another name is Unknown. `alloc` gives the memory
//! for what is read; where memory is wanting, also for the place in a fault, the fault is Memory.
ghost use Rattle.std.specs.Prelude.{◌≡◌};
ghost use Rattle.serde_json.specs.View.{view};
ghost use Rattle.ledger_terms.specs.Answers.{Follows};
ghost use Rattle.script_read.specs.Rounds.{commands_in, seed_of_of, some_seed_of, seed_of_in, trees_in, prepared_in, are_commands, what_in};

use crate::command::read_command;
use crate::host::is_participant;
use crate::tree::read_tree;
use json_walk::{
    COMMANDS, Place, WalkFault, fits, member, read_few, read_few_items, read_items, read_name,
    read_two,
};
use ledger_terms::{DraftList, SeedOf, Text, Topology, What};
use serde_json::Value;
use std::alloc::Global;

#[tactic(auto, unfolding(crate::specs::Rounds::commands_in))]
fn commands_in(
    alloc: Global,
    value: &Value,
    at: &Place,
    topology: &Topology,
) -> Result<What, WalkFault>
    ensures { Follows WalkFault.Memory result (commands_in topology.now.hosts at.now (view value.now)) }
{
    let found = member(value, at, "commands")?;
    let commands = read_few(
        alloc,
        found,
        &at.member("commands"),
        COMMANDS,
        |item, here| read_command(alloc, item, here, topology),
    )?;
    Ok(What::Commands(commands))
}

#[tactic(auto, unfolding(crate::specs::Rounds::seed_of_of))]
fn read_seed(
    alloc: Global,
    value: &Value,
    at: &Place,
    topology: &Topology,
) -> Result<SeedOf, WalkFault>
    ensures { Follows WalkFault.Memory result (seed_of_of topology.now.hosts at.now (view value.now)) }
{
    let items = read_items(value, at)?;
    let (participant, command) = read_two(items, at)?;
    let here = at.item(0);
    let participant = read_name(participant, &here)?;
    if !is_participant(topology.hosts.as_slice(), participant) {
        return Err(WalkFault::Unknown {
            path: here.pointer()?,
            name: Text::of(alloc, participant.as_str())?,
        });
    }
    let command = read_name(command, &at.item(1))?;
    Ok(SeedOf {
        participant,
        command,
    })
}

#[tactic(auto, unfolding(crate::specs::Rounds::some_seed_of))]
fn read_some_seed(
    alloc: Global,
    value: &Value,
    at: &Place,
    topology: &Topology,
) -> Result<Option<SeedOf>, WalkFault>
    ensures { Follows WalkFault.Memory result (some_seed_of topology.now.hosts at.now (view value.now)) }
{
    let seed = read_seed(alloc, value, at, topology)?;
    Ok(Some(seed))
}

#[tactic(auto, unfolding(crate::specs::Rounds::seed_of_in))]
fn seed_of_in(
    alloc: Global,
    value: &Value,
    at: &Place,
    topology: &Topology,
) -> Result<Option<SeedOf>, WalkFault>
    ensures { Follows WalkFault.Memory result (seed_of_in topology.now.hosts at.now (view value.now)) }
{
    match value.get("seed_of") {
        Some(found) => read_some_seed(alloc, found, &at.member("seed_of"), topology),
        None => Ok(None),
    }
}

#[tactic(auto, unfolding(crate::specs::Rounds::trees_in))]
fn trees_in(
    alloc: Global,
    value: &Value,
    at: &Place,
    topology: &Topology,
) -> Result<DraftList, WalkFault>
    ensures { Follows WalkFault.Memory result (trees_in topology.now.hosts at.now (view value.now)) }
{
    let found = member(value, at, "prepared")?;
    let here = at.member("prepared");
    read_few_items(found, &here, COMMANDS)?;
    let (trees, _) = read_tree(alloc, found, &here, 1, 0, topology)?;
    Ok(trees)
}

#[tactic(auto, unfolding(crate::specs::Rounds::prepared_in))]
fn prepared_in(
    alloc: Global,
    value: &Value,
    at: &Place,
    topology: &Topology,
) -> Result<What, WalkFault>
    ensures { Follows WalkFault.Memory result (prepared_in topology.now.hosts at.now (view value.now)) }
{
    let roots = trees_in(alloc, value, at, topology)?;
    let seed_of = seed_of_in(alloc, value, at, topology)?;
    Ok(What::Prepared { seed_of, roots })
}

/// Whether the value is an object with the members of a submission of commands; a submission without them may be one of a prepared tree.
#[tactic(auto, unfolding(crate::specs::Rounds::are_commands))]
pub fn are_commands(value: &Value) -> bool
    ensures { result ≡ are_commands (view value.now) }
{
    fits(
        value,
        &["participant", "command", "act_as", "commands"],
        &["ledger_time"],
    )
}

/// What the submission that is `value` at the place `at` asks for, its commands or else its prepared tree, or the first fault. Participants and
/// parties have to be those of the topology.
#[tactic(auto, unfolding(crate::specs::Rounds::what_in))]
pub fn what_in(
    alloc: Global,
    value: &Value,
    at: &Place,
    topology: &Topology,
) -> Result<What, WalkFault>
    ensures { Follows WalkFault.Memory result (what_in topology.now.hosts at.now (view value.now)) }
{
    if are_commands(value) {
        commands_in(alloc, value, at, topology)
    } else {
        prepared_in(alloc, value, at, topology)
    }
}

//! Commands. `topology` has the participants and the parties that a text may name; another name is Unknown. `alloc` gives the memory for what is read;
//! where memory is wanting, also for the place in a fault, the fault is Memory.
ghost use Rattle.std.specs.Prelude.{◌≡◌};
ghost use Rattle.serde_json.specs.View.{view};
ghost use Rattle.ledger_terms.specs.Answers.{Follows};
ghost use Rattle.script_read.specs.Commands.{has_create_members, create_of, has_exercise_members, exercise_of, is_create};
ghost use Rattle.script_read.specs.Commands.{is_exercise, create_in, exercise_in, command_of};

use crate::arg::args_in;
use crate::reference::reference_in;
use json_walk::{FIELDS, PARAMETERS, Place, WalkFault, fits, member, name_in, shape, template_in};
use ledger_terms::{Command, Topology};
use serde_json::Value;
use std::alloc::Global;

/// Whether the value is an object with the members `template` and `fields` alone, as the Create of a command or a draft and a forged instance have.
#[tactic(auto, unfolding(crate::specs::Commands::has_create_members))]
pub fn has_create_members(value: &Value) -> bool
    ensures { result ≡ has_create_members (view value.now) }
{
    fits(value, &["template", "fields"], &[])
}

#[tactic(auto, unfolding(crate::specs::Commands::create_of))]
fn read_create(
    alloc: Global,
    value: &Value,
    at: &Place,
    topology: &Topology,
) -> Result<Command, WalkFault>
    ensures { Follows WalkFault.Memory result (create_of topology.now.hosts at.now (view value.now)) }
{
    if !has_create_members(value) {
        return shape(at);
    }
    let template = template_in(value, at)?;
    let fields = args_in(alloc, value, at, "fields", FIELDS, topology)?;
    Ok(Command::Create { template, fields })
}

#[tactic(auto, unfolding(crate::specs::Commands::has_exercise_members))]
fn has_exercise_members(value: &Value) -> bool
    ensures { result ≡ has_exercise_members (view value.now) }
{
    fits(value, &["template", "contract", "choice", "args"], &[])
}

#[tactic(auto, unfolding(crate::specs::Commands::exercise_of))]
fn read_exercise(
    alloc: Global,
    value: &Value,
    at: &Place,
    topology: &Topology,
) -> Result<Command, WalkFault>
    ensures { Follows WalkFault.Memory result (exercise_of topology.now.hosts at.now (view value.now)) }
{
    if !has_exercise_members(value) {
        return shape(at);
    }
    let template = template_in(value, at)?;
    let contract = reference_in(alloc, value, at, "contract", topology)?;
    let choice = name_in(value, at, "choice")?;
    let args = args_in(alloc, value, at, "args", PARAMETERS, topology)?;
    Ok(Command::Exercise {
        template,
        contract,
        choice,
        args,
    })
}

/// Whether the value is an object with the member `create` alone, as a command or a draft is.
#[tactic(auto, unfolding(crate::specs::Commands::is_create))]
pub fn is_create(value: &Value) -> bool
    ensures { result ≡ is_create (view value.now) }
{
    fits(value, &["create"], &[])
}

/// Whether the value is an object with the member `exercise` alone, as a command or a draft is.
#[tactic(auto, unfolding(crate::specs::Commands::is_exercise))]
pub fn is_exercise(value: &Value) -> bool
    ensures { result ≡ is_exercise (view value.now) }
{
    fits(value, &["exercise"], &[])
}

#[tactic(auto, unfolding(crate::specs::Commands::create_in))]
fn create_in(
    alloc: Global,
    value: &Value,
    at: &Place,
    topology: &Topology,
) -> Result<Command, WalkFault>
    ensures { Follows WalkFault.Memory result (create_in topology.now.hosts at.now (view value.now)) }
{
    let found = member(value, at, "create")?;
    read_create(alloc, found, &at.member("create"), topology)
}

#[tactic(auto, unfolding(crate::specs::Commands::exercise_in))]
fn exercise_in(
    alloc: Global,
    value: &Value,
    at: &Place,
    topology: &Topology,
) -> Result<Command, WalkFault>
    ensures { Follows WalkFault.Memory result (exercise_in topology.now.hosts at.now (view value.now)) }
{
    if !is_exercise(value) {
        return shape(at);
    }
    let found = member(value, at, "exercise")?;
    read_exercise(alloc, found, &at.member("exercise"), topology)
}

/// The command that the value at the place `at` spells, a Create or an Exercise, or the first fault: Shape where it is neither. Participants and
/// parties have to be those of the topology.
#[tactic(auto, unfolding(crate::specs::Commands::command_of))]
pub fn read_command(
    alloc: Global,
    value: &Value,
    at: &Place,
    topology: &Topology,
) -> Result<Command, WalkFault>
    ensures { Follows WalkFault.Memory result (command_of topology.now.hosts at.now (view value.now)) }
{
    if is_create(value) {
        create_in(alloc, value, at, topology)
    } else {
        exercise_in(alloc, value, at, topology)
    }
}

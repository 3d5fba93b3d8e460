//! References to contracts. `alloc` gives the memory for what is read; where memory is wanting, also for the place in a fault, the fault is Memory.
ghost use Rattle.std.specs.Prelude.{◌≡◌, ◌∷◌, IfOk, option_map, []};
ghost use Rattle.serde_json.specs.View.{view};
ghost use Rattle.ledger_terms.specs.Answers.{Follows};
ghost use Rattle.script_read.specs.Refs.{hash_named, hash_of, is_digit, step_named, steps_from, path_named};
ghost use Rattle.script_read.specs.Refs.{label_with, label_named, label_of, behind_mark, reference_by, reference_of};
ghost use Rattle.script_read.specs.Commands.{reference_in};

use crate::host::is_participant;
use hex::FromHex;
use json_walk::{LABEL_STEPS, Place, WalkFault, check_limit, member, parts_round, shape};
use ledger_terms::{ContractRef, Hash, Label, Name, Path, Text, Topology};
use serde_json::Value;
use std::alloc::{AllocError, Global};

/// The last of the steps of a path, which begin at 0.
const LAST_STEP: u16 = 63;

/// The hash that 64 hexadecimal digits of either case spell.
fn hash_named(text: &str) -> Option<Hash>
    ensures { result ≡ hash_named text.now }
{
    match <[u8; 32] as FromHex>::from_hex(text) {
        Ok(bytes) => Some(Hash(bytes)),
        Err(_) => None,
    }
}

/// The hash that the value at the place `at` spells; Shape where it is no text of 64 hexadecimal digits of either case.
#[tactic(auto, unfolding(crate::specs::Refs::hash_of))]
pub fn read_hash(value: &Value, at: &Place) -> Result<Hash, WalkFault>
    ensures { Follows WalkFault.Memory result (hash_of at.now (view value.now)) }
{
    let Some(text) = value.as_str() else {
        return shape(at);
    };
    let Some(hash) = hash_named(text) else {
        return shape(at);
    };
    Ok(hash)
}

fn is_digit(byte: u8) -> bool
    ensures { result ≡ is_digit byte }
{
    48 <= byte && byte <= 57
}

fn two_digits(first: u8, second: u8) -> Option<u16>
    ensures { result ≡ step_named (first ∷ second ∷ []) }
{
    if first < 49 || !is_digit(first) || !is_digit(second) {
        return None;
    }
    let number = u16::from(first - 48) * 10 + u16::from(second - 48);
    if number > LAST_STEP {
        return None;
    }
    Some(number)
}

/// A step of a path, 0 to 63.
fn step_named(word: &[u8]) -> Option<u16>
    ensures { result ≡ step_named word.now }
{
    if word.len() == 1 && is_digit(word[0]) {
        return Some(u16::from(word[0] - 48));
    }
    if word.len() == 2 {
        return two_digits(word[0], word[1]);
    }
    None
}

/// The path of steps with dots between them.
fn path_named(alloc: Global, text: &str) -> Result<Option<Path>, AllocError>
    ensures { IfOk result (λ p. p ≡ path_named text.now) }
{
    let mut path = Path::new(alloc);
    'words: for word in text.split('.') {
        let Some(step) = step_named(word.as_bytes()) else {
            return Ok(None);
        };
        path.push(step)?;
    }
    Ok(Some(path))
}

fn label_with(participant: &str, command: &str, path: Path) -> Option<Label>
    ensures { result ≡ label_with participant.now command.now path }
{
    let (Some(participant), Some(command)) = (Name::read(participant), Name::read(command)) else {
        return None;
    };
    Some(Label {
        participant,
        command,
        path,
    })
}

/// The label `participant:command:path`, without its mark.
#[tactic(auto, unfolding(crate::specs::Refs::label_named))]
fn label_named(alloc: Global, text: &str) -> Result<Option<Label>, AllocError>
    ensures { IfOk result (λ l. l ≡ label_named text.now) }
{
    let Some((participant, rest)) = parts_round(text, ':') else {
        return Ok(None);
    };
    let Some((command, path)) = parts_round(rest, ':') else {
        return Ok(None);
    };
    match path_named(alloc, path)? {
        Some(path) => Ok(label_with(participant, command, path)),
        None => Ok(None),
    }
}

#[tactic(auto, unfolding(crate::specs::Refs::label_of))]
fn read_label(
    alloc: Global,
    text: &str,
    at: &Place,
    topology: &Topology,
) -> Result<Label, WalkFault>
    ensures { Follows WalkFault.Memory result (label_of topology.now.hosts at.now text.now) }
{
    let Some(label) = label_named(alloc, text)? else {
        return shape(at);
    };
    check_limit(at, LABEL_STEPS, label.path.len() as u64)?;
    if !is_participant(topology.hosts.as_slice(), label.participant) {
        return Err(WalkFault::Unknown {
            path: at.pointer()?,
            name: Text::of(alloc, label.participant.as_str())?,
        });
    }
    Ok(label)
}

/// What stands behind a `#` at the beginning.
fn behind_mark(text: &str) -> Option<&str>
    ensures { option_map (λ s. s.now) result ≡ behind_mark text.now }
{
    text.strip_prefix('#')
}

fn read_text(
    alloc: Global,
    text: &str,
    at: &Place,
    topology: &Topology,
) -> Result<ContractRef, WalkFault>
    ensures { Follows WalkFault.Memory result (reference_by topology.now.hosts at.now text.now (behind_mark text.now)) }
{
    if let Some(label) = behind_mark(text) {
        return Ok(ContractRef::Label(read_label(alloc, label, at, topology)?));
    }
    let Some(id) = hash_named(text) else {
        return shape(at);
    };
    Ok(ContractRef::Id(id))
}

/// The reference to a contract that the value at the place `at` spells, a label behind a `#` or an id; or the first fault: Shape, Limit where a
/// label has too many steps, Unknown where no participant of the topology has its name. Whether there is such a contract isn't asked.
#[tactic(auto, unfolding(crate::specs::Refs::reference_of))]
pub fn read_reference(
    alloc: Global,
    value: &Value,
    at: &Place,
    topology: &Topology,
) -> Result<ContractRef, WalkFault>
    ensures { Follows WalkFault.Memory result (reference_of topology.now.hosts at.now (view value.now)) }
{
    let Some(text) = value.as_str() else {
        return shape(at);
    };
    read_text(alloc, text, at, topology)
}

/// The reference to a contract in the member `name` of the object `value` at the place `at`, or the first fault: Shape where that member is absent or
/// no reference, Limit where a label has too many steps, Unknown where no participant of the topology has its name.
#[tactic(auto, unfolding(crate::specs::Commands::reference_in))]
pub fn reference_in(
    alloc: Global,
    value: &Value,
    at: &Place,
    name: &str,
    topology: &Topology,
) -> Result<ContractRef, WalkFault>
    ensures { Follows WalkFault.Memory result (reference_in topology.now.hosts at.now name.now (view value.now)) }
{
    let found = member(value, at, name)?;
    read_reference(alloc, found, &at.member(name), topology)
}

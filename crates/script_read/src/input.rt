//! The inputs of prepared actions: the contracts that they use, known ones or forged ones, whose parts are handed in as they are. `topology` has the
//! participants and the parties that a text may name; another name is Unknown. `alloc` gives the memory for what is read; where memory is wanting, also
//! for the place in a fault, the fault is Memory.
ghost use Rattle.std.specs.Prelude.{◌≡◌};
ghost use Rattle.serde_json.specs.View.{view};
ghost use Rattle.ledger_terms.specs.Answers.{Follows};
ghost use Rattle.script_read.specs.Drafts.{is_known, has_forged_members, some_id_of, id_of, id_in, salt_in};
ghost use Rattle.script_read.specs.Drafts.{instance_of, instance_in, forged_of, known_of, input_of, input_in};

use crate::arg::args_in;
use crate::command::has_create_members;
use crate::reference::{read_hash, read_reference, reference_in};
use json_walk::{FIELDS, Place, WalkFault, fits, member, shape, template_in};
use ledger_terms::{ArgList, ContractRef, Hash, Input, TemplateName, Topology};
use serde_json::Value;
use std::alloc::Global;

#[tactic(auto, unfolding(crate::specs::Drafts::is_known))]
fn is_known(value: &Value) -> bool
    ensures { result ≡ is_known (view value.now) }
{
    fits(value, &["known"], &[])
}

#[tactic(auto, unfolding(crate::specs::Drafts::has_forged_members))]
fn has_forged_members(value: &Value) -> bool
    ensures { result ≡ has_forged_members (view value.now) }
{
    fits(value, &["id", "salt", "instance"], &[])
}

#[tactic(auto, unfolding(crate::specs::Drafts::some_id_of))]
fn read_some_id(
    alloc: Global,
    value: &Value,
    at: &Place,
    topology: &Topology,
) -> Result<Option<ContractRef>, WalkFault>
    ensures { Follows WalkFault.Memory result (some_id_of topology.now.hosts at.now (view value.now)) }
{
    let id = read_reference(alloc, value, at, topology)?;
    Ok(Some(id))
}

#[tactic(auto, unfolding(crate::specs::Drafts::id_of))]
fn read_id(
    alloc: Global,
    value: &Value,
    at: &Place,
    topology: &Topology,
) -> Result<Option<ContractRef>, WalkFault>
    ensures { Follows WalkFault.Memory result (id_of topology.now.hosts at.now (view value.now)) }
{
    match value {
        Value::Null => Ok(None),
        Value::Bool(_) => read_some_id(alloc, value, at, topology),
        Value::Number(_) => read_some_id(alloc, value, at, topology),
        Value::String(_) => read_some_id(alloc, value, at, topology),
        Value::Array(_) => read_some_id(alloc, value, at, topology),
        Value::Object(_) => read_some_id(alloc, value, at, topology),
    }
}

#[tactic(auto, unfolding(crate::specs::Drafts::id_in))]
fn id_in(
    alloc: Global,
    value: &Value,
    at: &Place,
    topology: &Topology,
) -> Result<Option<ContractRef>, WalkFault>
    ensures { Follows WalkFault.Memory result (id_in topology.now.hosts at.now (view value.now)) }
{
    let found = member(value, at, "id")?;
    read_id(alloc, found, &at.member("id"), topology)
}

#[tactic(auto, unfolding(crate::specs::Drafts::salt_in))]
fn salt_in(value: &Value, at: &Place) -> Result<Hash, WalkFault>
    ensures { Follows WalkFault.Memory result (salt_in at.now (view value.now)) }
{
    let found = member(value, at, "salt")?;
    read_hash(found, &at.member("salt"))
}

/// The name of a template and the fields in the object `value` at the place `at`, which has the members `template` and `fields` alone, as a drafted
/// Create and a forged instance have; or the first fault. Participants and parties have to be those of the topology.
#[tactic(auto, unfolding(crate::specs::Drafts::instance_of))]
pub fn read_instance(
    alloc: Global,
    value: &Value,
    at: &Place,
    topology: &Topology,
) -> Result<(TemplateName, ArgList), WalkFault>
    ensures { Follows WalkFault.Memory result (instance_of topology.now.hosts at.now (view value.now)) }
{
    if !has_create_members(value) {
        return shape(at);
    }
    let template = template_in(value, at)?;
    let fields = args_in(alloc, value, at, "fields", FIELDS, topology)?;
    Ok((template, fields))
}

#[tactic(auto, unfolding(crate::specs::Drafts::instance_in))]
fn instance_in(
    alloc: Global,
    value: &Value,
    at: &Place,
    topology: &Topology,
) -> Result<(TemplateName, ArgList), WalkFault>
    ensures { Follows WalkFault.Memory result (instance_in topology.now.hosts at.now (view value.now)) }
{
    let found = member(value, at, "instance")?;
    read_instance(alloc, found, &at.member("instance"), topology)
}

#[tactic(auto, unfolding(crate::specs::Drafts::forged_of))]
fn read_forged(
    alloc: Global,
    value: &Value,
    at: &Place,
    topology: &Topology,
) -> Result<Input, WalkFault>
    ensures { Follows WalkFault.Memory result (forged_of topology.now.hosts at.now (view value.now)) }
{
    if !has_forged_members(value) {
        return shape(at);
    }
    let id = id_in(alloc, value, at, topology)?;
    let salt = salt_in(value, at)?;
    let (template, fields) = instance_in(alloc, value, at, topology)?;
    Ok(Input::Forged {
        id,
        salt,
        template,
        fields,
    })
}

#[tactic(auto, unfolding(crate::specs::Drafts::known_of))]
fn read_known(
    alloc: Global,
    value: &Value,
    at: &Place,
    topology: &Topology,
) -> Result<Input, WalkFault>
    ensures { Follows WalkFault.Memory result (known_of topology.now.hosts at.now (view value.now)) }
{
    let reference = reference_in(alloc, value, at, "known", topology)?;
    Ok(Input::Known(reference))
}

#[tactic(auto, unfolding(crate::specs::Drafts::input_of))]
fn read_input(
    alloc: Global,
    value: &Value,
    at: &Place,
    topology: &Topology,
) -> Result<Input, WalkFault>
    ensures { Follows WalkFault.Memory result (input_of topology.now.hosts at.now (view value.now)) }
{
    if is_known(value) {
        read_known(alloc, value, at, topology)
    } else {
        read_forged(alloc, value, at, topology)
    }
}

/// The input in the member `contract` of the draft that is `value` at the place `at`, a known contract or a forged one, or the first fault.
/// Participants and parties have to be those of the topology.
#[tactic(auto, unfolding(crate::specs::Drafts::input_in))]
pub fn input_in(
    alloc: Global,
    value: &Value,
    at: &Place,
    topology: &Topology,
) -> Result<Input, WalkFault>
    ensures { Follows WalkFault.Memory result (input_in topology.now.hosts at.now (view value.now)) }
{
    let found = member(value, at, "contract")?;
    read_input(alloc, found, &at.member("contract"), topology)
}

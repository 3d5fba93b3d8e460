//! Values as clients hand them in. `topology` has the participants and the parties that a text may name; another name is Unknown. `alloc` gives the
//! memory for what is read; where memory is wanting, also for the place in a fault, the fault is Memory.
ghost use Rattle.std.specs.Prelude.{◌≡◌};
ghost use Rattle.serde_json.specs.View.{view, number_view};
ghost use Rattle.ledger_terms.specs.Answers.{Follows};
ghost use Rattle.script_read.specs.Args.{int_of, text_arg_of, contract_of, object_of, arg_of, args_in};

use crate::reference::read_reference;
use json_walk::{Limit, Place, WalkFault, fits, member, read_few, read_text, shape};
use lang_read::{is_parties_form, is_party_form, read_parties_value, read_party_value};
use ledger_terms::{Arg, ArgList, Topology, Value as Term};
use serde_json::{Number, Value};
use std::alloc::Global;

#[tactic(auto, unfolding(crate::specs::Args::int_of))]
fn read_int(number: &Number, at: &Place) -> Result<Arg, WalkFault>
    ensures { Follows WalkFault.Memory result (int_of at.now (number_view number.now)) }
{
    let Some(int) = number.as_i64() else {
        return Err(WalkFault::NotInteger {
            path: at.pointer()?,
        });
    };
    Ok(Arg::Plain(Term::Int(int)))
}

#[tactic(auto, unfolding(crate::specs::Args::text_arg_of))]
fn read_text_arg(alloc: Global, text: &str, at: &Place) -> Result<Arg, WalkFault>
    ensures { Follows WalkFault.Memory result (text_arg_of at.now text.now) }
{
    let text = read_text(alloc, text, at)?;
    Ok(Arg::Plain(Term::Text(text)))
}

#[tactic(auto, unfolding(crate::specs::Args::contract_of))]
fn read_contract(
    alloc: Global,
    value: &Value,
    at: &Place,
    topology: &Topology,
) -> Result<Arg, WalkFault>
    ensures { Follows WalkFault.Memory result (contract_of topology.now.hosts at.now (view value.now)) }
{
    if !fits(value, &["contract"], &[]) {
        return shape(at);
    }
    let found = member(value, at, "contract")?;
    let reference = read_reference(alloc, found, &at.member("contract"), topology)?;
    Ok(Arg::Contract(reference))
}

#[tactic(auto, unfolding(crate::specs::Args::object_of))]
fn read_object(
    alloc: Global,
    value: &Value,
    at: &Place,
    topology: &Topology,
) -> Result<Arg, WalkFault>
    ensures { Follows WalkFault.Memory result (object_of topology.now.hosts at.now (view value.now)) }
{
    if is_party_form(value) {
        return Ok(Arg::Plain(read_party_value(alloc, value, at, topology)?));
    }
    if is_parties_form(value) {
        return Ok(Arg::Plain(read_parties_value(alloc, value, at, topology)?));
    }
    read_contract(alloc, value, at, topology)
}

/// The value or the reference to a contract that a field, an argument or a result spells at the place `at`, or the first fault; a list is Shape.
/// Participants and parties have to be those of the topology.
#[tactic(auto, unfolding(crate::specs::Args::arg_of))]
pub fn read_arg(
    alloc: Global,
    value: &Value,
    at: &Place,
    topology: &Topology,
) -> Result<Arg, WalkFault>
    ensures { Follows WalkFault.Memory result (arg_of topology.now.hosts at.now (view value.now)) }
{
    match value {
        Value::Null => Ok(Arg::Plain(Term::Unit)),
        Value::Bool(truth) => Ok(Arg::Plain(Term::Bool(*truth))),
        Value::Number(number) => read_int(number, at),
        Value::String(text) => read_text_arg(alloc, text.as_str(), at),
        Value::Array(_) => shape(at),
        Value::Object(_) => read_object(alloc, value, at, topology),
    }
}

/// The fields or arguments in the list that is the member `name` of the object `value` at the place `at`: Shape where it is absent or no list,
/// Limit where their number is outside the limit, else the first fault of one. Participants and parties have to be those of the topology.
#[tactic(auto, unfolding(crate::specs::Args::args_in))]
pub fn args_in(
    alloc: Global,
    value: &Value,
    at: &Place,
    name: &str,
    limit: Limit,
    topology: &Topology,
) -> Result<ArgList, WalkFault>
    ensures { Follows WalkFault.Memory result (args_in topology.now.hosts at.now name.now limit (view value.now)) }
{
    let found = member(value, at, name)?;
    read_few(
        alloc,
        found,
        &at.member(name),
        limit,
        |item, here| read_arg(alloc, item, here, topology),
    )
}

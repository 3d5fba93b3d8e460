//! Whether counts and lengths have room in a spelling. What has room is in range as well, since the types keep the rest: names
//! are names, sets rise, hashes have 32 bytes, texts are UTF-8 and numbers fit. So its spelling is read as it again.
ghost use Rattle.std.specs.Prelude.{◌≡◌, ◌↔◌, ◌≤◌, FitsSigned, IsTrue, All, length, true};
ghost use Rattle.std.specs.Int.{w64};
ghost use Rattle.std.specs.Str.{is_utf8};
ghost use Rattle.ledger_terms.specs.Names.{IsName};
ghost use Rattle.wire_form.specs.InRange.{AreInRange, IsAction, IsHash, IsInRange, IsInput, IsInstance, IsPartySet};
ghost use Rattle.wire_form.specs.Spellable.{AreSpellable, IsSpellable, IsSpellableAction, IsSpellableInstance, IsSpellableSet};

use ledger_terms::limits::{MOST_FIELDS, MOST_PARTIES, MOST_TEXT_BYTES};
use ledger_terms::{Action, Hash, Instance, Name, PartySet, Text, Value, ValueList};

/// Whether a set has at most 128 names, so that it has a spelling.
pub fn is_spellable_set(parties: &PartySet) -> bool
    ensures exact { IsTrue result ↔ IsSpellableSet parties.now }
    ensures in_range { IsTrue result ↔ IsPartySet parties.now }
{
    let names = parties.as_slice();
    are_names(names) && names.len() <= MOST_PARTIES
}

/// Whether a value has a spelling: its text has at most 256 bytes, its set at most 128 names. Of other values it is true.
pub fn is_spellable(value: &Value) -> bool
    ensures exact { IsTrue result ↔ IsSpellable value.now }
    ensures in_range { IsTrue result ↔ IsInRange value.now }
{
    match value {
        Value::Unit => true,
        Value::Int(number) => is_number(*number),
        Value::Bool(_) => true,
        Value::Text(text) => is_short(text),
        Value::Party(party) => is_name(party),
        Value::Contract(id) => is_hash(id),
        Value::Parties(parties) => is_spellable_set(parties),
    }
}

/// Whether a list has a spelling: at most 12 values, each of which has one.
pub fn are_spellable(values: &ValueList) -> bool
    ensures exact { IsTrue result ↔ AreSpellable values.now }
    ensures in_range { IsTrue result ↔ AreInRange values.now }
{
    values.len() <= MOST_FIELDS && all_spellable(values.as_slice())
}

fn all_spellable(values: &[Value]) -> bool
    ensures exact { IsTrue result ↔ All IsSpellable values.now }
    ensures in_range { IsTrue result ↔ All IsInRange values.now }
{
    values.iter().all(|value| is_spellable(value))
}

/// Whether an instance has a spelling: at most 12 fields, each of which has one.
pub fn is_spellable_instance(instance: &Instance) -> bool
    ensures exact { IsTrue result ↔ IsSpellableInstance instance.now }
    ensures in_range { IsTrue result ↔ IsInstance instance.now }
{
    is_name(&instance.template.package)
        && is_name(&instance.template.name)
        && are_spellable(instance.fields.as_list())
}

/// Whether an action has a spelling: its instance, and what it has of arguments, actors and result, each have one.
pub fn is_spellable_action(action: &Action) -> bool
    ensures exact { IsTrue result ↔ IsSpellableAction action.now }
    ensures in_range { IsTrue result ↔ IsAction action.now }
{
    match action {
        Action::Create { id, instance } => is_hash(id) && is_spellable_instance(instance),
        Action::Exercise {
            id,
            salt,
            instance,
            choice,
            args,
            actors,
            result,
            ..
        } => {
            is_spellable_input(id, salt, instance)
                && is_name(choice)
                && are_spellable(args)
                && is_spellable_set(actors)
                && is_spellable(result)
        }
        Action::Fetch {
            id,
            salt,
            instance,
            actors,
        } => is_spellable_input(id, salt, instance) && is_spellable_set(actors),
    }
}

// The contract that an action uses.
fn is_spellable_input(id: &Hash, salt: &Hash, instance: &Instance) -> bool
    ensures exact { IsTrue result ↔ IsSpellableInstance instance.now }
    ensures in_range { IsTrue result ↔ IsInput id.now salt.now instance.now }
{
    is_hash(id) && is_hash(salt) && is_spellable_instance(instance)
}

fn is_short(text: &Text) -> bool
    ensures exact { IsTrue result ↔ (length text.now ≤ MOST_TEXT_BYTES) }
    ensures utf8 { is_utf8 text.now ≡ true }
{
    text.as_str().len() <= MOST_TEXT_BYTES
}

// The next four hold of every name, hash and number. They are asked so that the contracts above can say what the types keep.
fn are_names(names: &[Name]) -> bool
    ensures always { IsTrue result }
    ensures names { All IsName names.now }
{
    for name in names {
        if !is_name(name) {
            return false;
        }
    }
    true
}

fn is_name(name: &Name) -> bool
    ensures always { IsTrue result }
    ensures name { IsName name.now }
{
    !name.as_bytes().is_empty()
}

fn is_hash(hash: &Hash) -> bool
    ensures always { IsTrue result }
    ensures count { IsHash hash.now }
{
    !hash.as_bytes().is_empty()
}

fn is_number(number: i64) -> bool
    ensures always { IsTrue result }
    ensures fits { FitsSigned w64 number }
{
    i64::MIN <= number
}

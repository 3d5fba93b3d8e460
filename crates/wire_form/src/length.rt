//! How long spellings are, or the greatest usize where that is more. Nothing here takes memory, and all counts and lengths
//! are allowed, also those that have no room in a spelling.
ghost use Rattle.std.specs.Prelude.{◌≡◌, ◌≤◌, ◌++◌, length};
ghost use Rattle.wire_form.specs.Spelling.{spell_name, spell_parties, spell_value, spell_values, spell_instance, spell_action};
ghost use Rattle.wire_form.specs.Lengths.{capped};

use ledger_terms::{Action, Hash, Instance, Name, PartySet, Value, ValueList};

fn name_len(name: &Name) -> usize
    ensures len { result ≡ length (spell_name name.now) }
    ensures few { result ≤ 33 }
{
    name.as_bytes().len() + 1
}

fn hash_len(hash: &Hash) -> usize
    ensures len { result ≡ length hash.now }
    ensures few { result ≡ 32 }
{
    let bytes: &[u8] = &hash.0;
    bytes.len()
}

// The length of the contract that an action uses.
fn input_len(id: &Hash, salt: &Hash, instance: &Instance) -> usize
    ensures { result ≡ capped (length (id.now ++ salt.now ++ spell_instance instance.now)) }
{
    instance_len(instance).saturating_add(hash_len(id) + hash_len(salt))
}

/// How many bytes a set's spelling has, or 2^64 - 1 where that is more.
pub fn parties_len(parties: &PartySet) -> usize
    ensures { result ≡ capped (length (spell_parties parties.now)) }
{
    let mut len: usize = 2;
    for name in parties.as_slice() {
        len = len.saturating_add(name_len(name));
    }
    len
}

/// How many bytes a value's spelling has, or 2^64 - 1 where that is more.
pub fn value_len(value: &Value) -> usize
    ensures { result ≡ capped (length (spell_value value.now)) }
{
    match value {
        Value::Unit => 1,
        Value::Int(_) => 9,
        Value::Bool(_) => 2,
        Value::Text(text) => text.as_str().len().saturating_add(3),
        Value::Party(party) => 1 + name_len(party),
        Value::Contract(id) => 1 + hash_len(id),
        Value::Parties(parties) => parties_len(parties).saturating_add(1),
    }
}

/// How many bytes the spelling of a list of values has, or 2^64 - 1 where that is more.
pub fn values_len(values: &ValueList) -> usize
    ensures { result ≡ capped (length (spell_values values.now)) }
{
    let mut len: usize = 1;
    for value in values.as_slice() {
        len = len.saturating_add(value_len(value));
    }
    len
}

/// How many bytes an instance's spelling has, or 2^64 - 1 where that is more.
pub fn instance_len(instance: &Instance) -> usize
    ensures { result ≡ capped (length (spell_instance instance.now)) }
{
    let names = name_len(&instance.template.package) + name_len(&instance.template.name);
    values_len(instance.fields.as_list()).saturating_add(names)
}

/// How many bytes an action's spelling has, or 2^64 - 1 where that is more.
pub fn action_len(action: &Action) -> usize
    ensures { result ≡ capped (length (spell_action action.now)) }
{
    match action {
        Action::Create { id, instance } => {
            instance_len(instance).saturating_add(1 + hash_len(id))
        }
        Action::Exercise {
            id,
            salt,
            instance,
            choice,
            args,
            actors,
            result,
            ..
        } => input_len(id, salt, instance)
            .saturating_add(2 + name_len(choice))
            .saturating_add(values_len(args))
            .saturating_add(parties_len(actors))
            .saturating_add(value_len(result)),
        Action::Fetch {
            id,
            salt,
            instance,
            actors,
        } => input_len(id, salt, instance)
            .saturating_add(1)
            .saturating_add(parties_len(actors)),
    }
}

//! Writing spellings at the end of a buffer. After want of memory the buffer holds a beginning of what was to be written.
ghost use Rattle.std.specs.Prelude.{◌≡◌, ◌++◌, ◌∷◌, [], OnOk};
ghost use Rattle.std.specs.Int.{w32, w64, to_be_bytes};
ghost use Rattle.wire_form.specs.Spelling.{spell_name, spell_parties, spell_truth, spell_value, spell_values, spell_instance, spell_action};
ghost use Rattle.wire_form.specs.Spellable.{IsSpellableSet, IsSpellable, AreSpellable, IsSpellableInstance, IsSpellableAction};

use ledger_terms::{Action, Bytes, Hash, Instance, Name, PartySet, Value, ValueList};
use std::alloc::AllocError;

/// Puts a number of four bytes at the end of `out`, high byte first.
pub fn encode_u32(number: u32, out: &mut Bytes) -> Result<(), AllocError>
    ensures { OnOk result (out.new ≡ out.old ++ to_be_bytes w32 number) }
{
    out.extend(&number.to_be_bytes())
}

/// Puts a number of eight bytes at the end of `out`, high byte first.
pub fn encode_u64(number: u64, out: &mut Bytes) -> Result<(), AllocError>
    ensures { OnOk result (out.new ≡ out.old ++ to_be_bytes w64 number) }
{
    out.extend(&number.to_be_bytes())
}

/// Puts the 32 bytes of a hash at the end of `out`.
pub fn encode_hash(hash: &Hash, out: &mut Bytes) -> Result<(), AllocError>
    ensures { OnOk result (out.new ≡ out.old ++ hash.now) }
{
    out.extend(&hash.0)
}

/// Puts a truth value at the end of `out`: one byte, 1 for true and 0 for false.
pub fn encode_truth(truth: bool, out: &mut Bytes) -> Result<(), AllocError>
    ensures { OnOk result (out.new ≡ out.old ++ spell_truth truth) }
{
    out.push(if truth { 1 } else { 0 })
}

/// Puts a name's spelling at the end of `out`: a byte of length and the name.
pub fn encode_name(name: &Name, out: &mut Bytes) -> Result<(), AllocError>
    ensures { OnOk result (out.new ≡ out.old ++ spell_name name.now) }
{
    let text = name.as_bytes();
    out.push(text.len() as u8)?;
    out.extend(text)
}

/// Puts a set's spelling at the end of `out`: two bytes of count and the names. The set has at most 128.
pub fn encode_parties(parties: &PartySet, out: &mut Bytes) -> Result<(), AllocError>
    requires { IsSpellableSet parties.now }
    ensures { OnOk result (out.new ≡ out.old ++ spell_parties parties.now) }
{
    let names = parties.as_slice();
    out.extend(&(names.len() as u16).to_be_bytes())?;
    for name in names {
        encode_name(name, out)?;
    }
    Ok(())
}

/// Puts a value's spelling at the end of `out`: a byte that tells its kind, and what that kind has. A text has at most 256 bytes, and a set at most 128
/// names. The error is want of memory.
pub fn encode_value(value: &Value, out: &mut Bytes) -> Result<(), AllocError>
    requires { IsSpellable value.now }
    ensures { OnOk result (out.new ≡ out.old ++ spell_value value.now) }
{
    match value {
        Value::Unit => out.push(0),
        Value::Int(number) => {
            out.push(1)?;
            out.extend(&number.to_be_bytes())
        }
        Value::Bool(truth) => {
            out.push(2)?;
            encode_truth(*truth, out)
        }
        Value::Text(text) => {
            let text = text.as_str();
            out.push(3)?;
            out.extend(&(text.len() as u16).to_be_bytes())?;
            out.extend(text.as_bytes())
        }
        Value::Party(party) => {
            out.push(4)?;
            encode_name(party, out)
        }
        Value::Contract(id) => {
            out.push(5)?;
            encode_hash(id, out)
        }
        Value::Parties(parties) => {
            out.push(6)?;
            encode_parties(parties, out)
        }
    }
}

/// Puts the spelling of a list of values at the end of `out`: a byte of count and the values, at most 12.
pub fn encode_values(values: &ValueList, out: &mut Bytes) -> Result<(), AllocError>
    requires { AreSpellable values.now }
    ensures { OnOk result (out.new ≡ out.old ++ spell_values values.now) }
{
    let values = values.as_slice();
    out.push(values.len() as u8)?;
    for value in values {
        encode_value(value, out)?;
    }
    Ok(())
}

/// Puts an instance's spelling at the end of `out`: the names of its package and of its template, and its fields.
pub fn encode_instance(instance: &Instance, out: &mut Bytes) -> Result<(), AllocError>
    requires { IsSpellableInstance instance.now }
    ensures { OnOk result (out.new ≡ out.old ++ spell_instance instance.now) }
{
    encode_name(&instance.template.package, out)?;
    encode_name(&instance.template.name, out)?;
    encode_values(instance.fields.as_list(), out)
}

/// Puts an action's spelling at the end of `out`: a byte that tells whether it is a Create, an Exercise or a Fetch, and its parts.
pub fn encode_action(action: &Action, out: &mut Bytes) -> Result<(), AllocError>
    requires { IsSpellableAction action.now }
    ensures { OnOk result (out.new ≡ out.old ++ spell_action action.now) }
{
    match action {
        Action::Create { id, instance } => {
            out.push(1)?;
            encode_hash(id, out)?;
            encode_instance(instance, out)
        }
        Action::Exercise {
            id,
            salt,
            instance,
            choice,
            args,
            actors,
            consuming,
            result,
        } => {
            out.push(2)?;
            encode_input(id, salt, instance, out)?;
            encode_name(choice, out)?;
            encode_values(args, out)?;
            encode_parties(actors, out)?;
            encode_truth(*consuming, out)?;
            encode_value(result, out)
        }
        Action::Fetch {
            id,
            salt,
            instance,
            actors,
        } => {
            out.push(3)?;
            encode_input(id, salt, instance, out)?;
            encode_parties(actors, out)
        }
    }
}

// The contract that an action uses.
fn encode_input(
    id: &Hash,
    salt: &Hash,
    instance: &Instance,
    out: &mut Bytes,
) -> Result<(), AllocError>
    requires { IsSpellableInstance instance.now }
    ensures { OnOk result (out.new ≡ out.old ++ (id.now ++ salt.now ++ spell_instance instance.now)) }
{
    encode_hash(id, out)?;
    encode_hash(salt, out)?;
    encode_instance(instance, out)
}

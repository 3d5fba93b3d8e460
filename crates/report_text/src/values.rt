//! The text of values and instances. After want of memory nothing is said of a text that something was to be put into.
ghost use Rattle.std.specs.Prelude.{◌≡◌, ◌++◌, ◌<◌, OnOk, false, string_bytes, decimal};
ghost use Rattle.std.specs.Fmt.{signed_decimal, digit_glyph};
ghost use Rattle.std.specs.List.{flat_map};
ghost use Rattle.report_text.specs.Values.{between, hex_pair, is_escaped, byte_text, names_text, value_text, values_text, instance_text};

use itoa::Buffer;
use ledger_terms::{Hash, Instance, Name, Value};
use std::alloc::AllocError;

/// Puts a number in decimal digits at the end of the text.
pub fn put_number(out: &mut String, number: u64) -> Result<(), AllocError>
    ensures { OnOk result (string_bytes out.new ≡ string_bytes out.old ++ decimal number) }
{
    let mut buffer = Buffer::new();
    out.push_str(buffer.format(number))
}

fn put_signed(out: &mut String, number: i64) -> Result<(), AllocError>
    ensures { OnOk result (string_bytes out.new ≡ string_bytes out.old ++ signed_decimal number) }
{
    let mut buffer = Buffer::new();
    out.push_str(buffer.format(number))
}

/// Puts names at the end of the text, with a comma between them.
pub fn put_names(out: &mut String, names: &[Name]) -> Result<(), AllocError>
    ensures { OnOk result (string_bytes out.new ≡ string_bytes out.old ++ names_text names.now) }
{
    let Some((first, others)) = names.split_first() else {
        return Ok(());
    };
    out.push_str(first.as_str())?;
    'others: for name in others {
        out.push_str(",")?;
        out.push_str(name.as_str())?;
    }
    Ok(())
}

/// The lower case character of a digit below 16.
fn digit(value: u8) -> char
    requires { value < 16 }
    ensures { result ≡ digit_glyph false value }
{
    if value < 10 {
        (b'0' + value) as char
    } else {
        (b'a' + (value - 10)) as char
    }
}

fn put_byte(out: &mut String, byte: u8) -> Result<(), AllocError>
    ensures { OnOk result (string_bytes out.new ≡ string_bytes out.old ++ hex_pair byte) }
{
    out.push(digit(byte / 16))?;
    out.push(digit(byte % 16))
}

fn put_digits(out: &mut String, bytes: &[u8]) -> Result<(), AllocError>
    ensures { OnOk result (string_bytes out.new ≡ string_bytes out.old ++ flat_map hex_pair bytes.now) }
{
    'bytes: for byte in bytes {
        put_byte(out, *byte)?;
    }
    Ok(())
}

fn put_hash(out: &mut String, hash: &Hash) -> Result<(), AllocError>
    ensures { OnOk result (string_bytes out.new ≡ string_bytes out.old ++ flat_map hex_pair hash.now) }
{
    put_digits(out, &hash.0)
}

/// Puts a value at the end of the text: a text in double quotes, a contract as # with its id in hexadecimal digits, parties in brackets.
pub fn put_value(out: &mut String, value: &Value) -> Result<(), AllocError>
    ensures { OnOk result (string_bytes out.new ≡ string_bytes out.old ++ value_text value.now) }
{
    match value {
        Value::Unit => out.push_str("()"),
        Value::Int(number) => put_signed(out, *number),
        Value::Bool(truth) => out.push_str(if *truth { "true" } else { "false" }),
        Value::Text(text) => {
            out.push_str("\"")?;
            put_escaped(out, text.as_str())?;
            out.push_str("\"")
        }
        Value::Party(party) => out.push_str(party.as_str()),
        Value::Contract(id) => {
            out.push_str("#")?;
            put_hash(out, id)
        }
        Value::Parties(parties) => {
            out.push_str("[")?;
            put_names(out, parties.as_slice())?;
            out.push_str("]")
        }
    }
}

fn needs_escape(byte: u8) -> bool
    ensures { result ≡ is_escaped byte }
{
    byte < 32 || byte == 127 || byte == b'"' || byte == b'\\'
}

/// Puts a text at the end, its control bytes, double quotes and backslashes as \x with two hexadecimal digits.
fn put_escaped(out: &mut String, text: &str) -> Result<(), AllocError>
    ensures { OnOk result (string_bytes out.new ≡ string_bytes out.old ++ flat_map byte_text text.now) }
{
    let bytes = text.as_bytes();
    let mut start = 0;
    'bytes: for at in 0..bytes.len() {
        let byte = bytes[at];
        if needs_escape(byte) {
            out.push_str(&text[start..at])?;
            out.push_str("\\x")?;
            put_byte(out, byte)?;
            start = at + 1;
        }
    }
    out.push_str(&text[start..])
}

fn put_items(out: &mut String, values: &[Value]) -> Result<(), AllocError>
    ensures { OnOk result (string_bytes out.new ≡ string_bytes out.old ++ between 44 value_text values.now) }
{
    let Some((first, others)) = values.split_first() else {
        return Ok(());
    };
    put_value(out, first)?;
    'others: for value in others {
        out.push_str(",")?;
        put_value(out, value)?;
    }
    Ok(())
}

/// Puts values at the end of the text, in parentheses and with a comma between them.
pub fn put_values(out: &mut String, values: &[Value]) -> Result<(), AllocError>
    ensures { OnOk result (string_bytes out.new ≡ string_bytes out.old ++ values_text values.now) }
{
    out.push_str("(")?;
    put_items(out, values)?;
    out.push_str(")")
}

/// Puts an instance at the end of the text: its template, as package and name with a point between them, and its fields in parentheses.
pub fn put_instance(out: &mut String, instance: &Instance) -> Result<(), AllocError>
    ensures { OnOk result (string_bytes out.new ≡ string_bytes out.old ++ instance_text instance.now) }
{
    out.push_str(instance.template.package.as_str())?;
    out.push_str(".")?;
    out.push_str(instance.template.name.as_str())?;
    put_values(out, instance.fields.as_slice())
}

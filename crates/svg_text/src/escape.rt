//! The escape: how a text stands in XML (Extensible Markup Language 1.0, 2.4).
ghost use Rattle.std.specs.Prelude.{◌≡◌, ◌++◌, OnOk, string_bytes};
ghost use Rattle.svg_text.specs.Escape.{is_kept, entity, escaped};

use std::alloc::AllocError;

/// Whether XML keeps a byte for itself.
fn is_kept(byte: u8) -> bool
    ensures { result ≡ is_kept byte }
{
    byte == b'&' || byte == b'<' || byte == b'>' || byte == b'"' || byte == b'\''
}

/// The entity of a byte that XML keeps for itself.
fn entity(byte: u8) -> &'static str
    ensures { result.now ≡ entity byte }
{
    match byte {
        b'&' => "&amp;",
        b'<' => "&lt;",
        b'>' => "&gt;",
        b'"' => "&quot;",
        _ => "&apos;",
    }
}

/// Puts a text at the end of `out`, the bytes that XML keeps for itself as their entities. It may then stand between tags, and between the quotes of
/// an attribute. Where there is no memory, a part of it may have been put.
pub fn put_escaped(out: &mut String, text: &str) -> Result<(), AllocError>
    ensures { OnOk result (string_bytes out.new ≡ string_bytes out.old ++ escaped text.now) }
{
    let bytes = text.as_bytes();
    let mut start = 0;
    'bytes: for at in 0..bytes.len() {
        let byte = bytes[at];
        if is_kept(byte) {
            out.push_str(&text[start..at])?;
            out.push_str(entity(byte))?;
            start = at + 1;
        }
    }
    out.push_str(&text[start..])
}

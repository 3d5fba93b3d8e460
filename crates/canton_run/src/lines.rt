//! The line that says why a run ended.
ghost use Rattle.std.specs.Prelude.{◌≡◌, ◌++◌, IfOk, OnOk, codes, string_bytes};
ghost use Rattle.canton_run.specs.Lines.{fault_line, line_of, place_text, why_text};

use crate::finish::Finish;
use script_read::ScriptFault;
use std::alloc::{AllocError, Global};

/// The line on standard error for a run that ends with another status than 0, without its line feed: why it ended, or the script's fault with its name
/// and its place, where it has one. A fault of packages has its kind before its place.
pub fn line(alloc: Global, finish: &Finish) -> Result<String, AllocError>
    ensures { IfOk result (λ line. string_bytes line ≡ line_of finish.now.status finish.now.fault) }
{
    match &finish.fault {
        Some(fault) => fault_line(alloc, fault),
        None => {
            let mut out = String::from_str(alloc, "canton_cli: ")?;
            out.push_str(why(finish.status))?;
            Ok(out)
        }
    }
}

/// Why a run ends with a status.
fn why(status: u8) -> &'static str
    ensures { result.now ≡ why_text status }
{
    match status {
        2 => "usage",
        4 => "read fault",
        5 => "write fault",
        6 => "too long",
        70 => "out of memory",
        _ => "unknown status",
    }
}

fn fault_line(alloc: Global, fault: &ScriptFault) -> Result<String, AllocError>
    ensures { IfOk result (λ line. string_bytes line ≡ fault_line fault.now) }
{
    let mut out = String::from_str(alloc, "canton_cli: script ")?;
    out.push_str(fault.name())?;
    put_place(&mut out, fault)?;
    Ok(out)
}

fn put_path(out: &mut String, path: &str) -> Result<(), AllocError>
    ensures { OnOk result (string_bytes out.new ≡ string_bytes out.old ++ codes " " ++ path.now) }
{
    out.push_str(" ")?;
    out.push_str(path)
}

/// Puts the place of a fault at the end, where it has one.
fn put_place(out: &mut String, fault: &ScriptFault) -> Result<(), AllocError>
    ensures { OnOk result (string_bytes out.new ≡ string_bytes out.old ++ place_text fault.now) }
{
    match fault {
        ScriptFault::Package { fault } => {
            put_path(out, fault.kind.as_str())?;
            put_path(out, fault.at.as_str())
        }
        ScriptFault::Shape { path } => put_path(out, path.as_str()),
        ScriptFault::NotInteger { path } => put_path(out, path.as_str()),
        ScriptFault::Unknown { path, .. } => put_path(out, path.as_str()),
        ScriptFault::Limit { path, .. } => put_path(out, path.as_str()),
        ScriptFault::Repeated { path } => put_path(out, path.as_str()),
        ScriptFault::NotJson => Ok(()),
        ScriptFault::Memory => Ok(()),
    }
}

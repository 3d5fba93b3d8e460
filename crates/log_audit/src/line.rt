//! The line of an audit.
ghost use Rattle.std.specs.Prelude.{◌≡◌, ◌++◌, IfOk, OnOk, string_bytes};
ghost use Rattle.log_audit.specs.Lines.{line_of, told_of, why_name};
ghost use Rattle.log_audit.specs.declared.answer.Audit.TheVariants.{No};

use crate::answer::Audit;
use audit_model::Why;
use ledger_terms::Text;
use std::alloc::{AllocError, Global};

// The word of a case.
fn name_of(why: Why) -> &'static str
    ensures { result.now ≡ why_name why }
{
    match why {
        Why::Time => "Time",
        Why::Unframed => "Unframed",
        Why::Repeated => "Repeated",
        Why::NoRequest => "NoRequest",
        Why::TooLate => "TooLate",
        Why::WrongCheck => "WrongCheck",
        Why::WrongDecision => "WrongDecision",
        Why::WrongTrigger => "WrongTrigger",
    }
}

fn put_no(out: &mut String, place: u64, why: Why) -> Result<(), AllocError>
    ensures { OnOk result (string_bytes out.new ≡ string_bytes out.old ++ told_of (No place why)) }
{
    let why = name_of(why);
    write!(out, "no {place} {why}")
}

fn put_audit(out: &mut String, audit: Audit) -> Result<(), AllocError>
    ensures { OnOk result (string_bytes out.new ≡ string_bytes out.old ++ told_of audit) }
{
    match audit {
        Audit::Yes { entries, approved } => {
            write!(out, "yes entries {entries} approved {approved}")
        }
        Audit::No { place, why } => put_no(out, place, why),
        Audit::Bad { at } => write!(out, "bad {at}"),
    }
}

/// The line of an audit, with its line feed: `yes entries N approved A`, `no PLACE WHY` or `bad AT`.
pub fn audit_line(alloc: Global, audit: Audit) -> Result<Text, AllocError>
    ensures { IfOk result (λ text. text ≡ line_of audit) }
{
    let mut out = String::new(alloc);
    put_audit(&mut out, audit)?;
    out.push_str("\n")?;
    Ok(Text::of_string(out))
}

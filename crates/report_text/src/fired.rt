//! The lines of what rules caused. After want of memory nothing is said of the text that they were to be put into.
ghost use Rattle.std.specs.Prelude.{◌≡◌, ◌++◌, OnOk, codes, decimal, string_bytes};
ghost use Rattle.report_text.specs.Fired.{fired_line, fired_lines};

use crate::values::{put_instance, put_number};
use ledger_terms::Name;
use std::alloc::AllocError;
use trigger_rules::{Caused, CausedList};

// The round and the rule.
fn put_rule(out: &mut String, round: u64, rule: Name) -> Result<(), AllocError>
    ensures { OnOk result (string_bytes out.new ≡ string_bytes out.old ++ codes "fired " ++ decimal round ++ codes " " ++ rule ++ codes " ") }
{
    out.push_str("fired ")?;
    put_number(out, round)?;
    out.push_str(" ")?;
    out.push_str(rule.as_str())?;
    out.push_str(" ")
}

fn put_one(out: &mut String, one: &Caused) -> Result<(), AllocError>
    ensures { OnOk result (string_bytes out.new ≡ string_bytes out.old ++ fired_line one.now) }
{
    put_rule(out, u64::from(one.round), one.rule)?;
    put_instance(out, &one.instance)?;
    out.push_str(" as ")?;
    out.push_str(one.submission.command.as_str())?;
    out.push_str("\n")
}

/// Puts a line at the end of the text for each submission that a rule caused: its round, the rule, the contract by its instance, and its command.
pub fn put_fired(out: &mut String, caused: &CausedList) -> Result<(), AllocError>
    ensures { OnOk result (string_bytes out.new ≡ string_bytes out.old ++ fired_lines caused.now) }
{
    'fired: for one in caused.as_slice() {
        put_one(out, one)?;
    }
    Ok(())
}

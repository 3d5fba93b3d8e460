//! What is wrong with what was read.
use ledger_terms::Name;
use report_read::Expected;
use script_read::ScriptFault;

/// What is wrong where the status alone doesn't tell it: a line of a report, a script, or a name that is no participant's of the script.
#[derive(Drop)]
pub(crate) enum Fault {
    Report { number: u64, expected: Expected },
    Script(ScriptFault),
    Participant(Name),
}

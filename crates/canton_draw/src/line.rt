//! The line on standard error.
use crate::end::End;
use crate::fault::Fault;
use canton_run::{Finish, ended};
use ledger_terms::Name;
use std::alloc::{AllocError, Global};

/// The line on standard error for an end with another status than 0, without its line feed. It begins with `name`, that of the drawing.
pub(crate) fn line_of(alloc: Global, name: &str, end: End) -> Result<String, AllocError> {
    if let Some(Fault::Participant(missing)) = &end.fault {
        return participant_line(alloc, name, missing);
    }
    let End { status, fault } = end;
    match fault {
        Some(Fault::Report { number, expected }) => {
            let words = expected.words();
            format!(in alloc; "{name}: line {number}: expected {words}")
        }
        Some(Fault::Script(fault)) => line_as_run(alloc, name, ended(alloc, status, Some(fault))),
        _ => line_as_run(alloc, name, ended(alloc, status, None)),
    }
}

fn participant_line(alloc: Global, name: &str, missing: &Name) -> Result<String, AllocError> {
    format!(in alloc; "{name}: no participant {missing}")
}

/// The line that `canton_cli` writes for such an end of a run, with `name` in the place of `canton_cli`.
fn line_as_run(alloc: Global, name: &str, finish: Finish) -> Result<String, AllocError> {
    let line = canton_run::line(alloc, &finish);
    finish.forget();
    let line = line?;
    let mut out = String::from_str(alloc, name)?;
    if let Some(why) = line.as_str().strip_prefix("canton_cli") {
        out.push_str(why)?;
    }
    Ok(out)
}

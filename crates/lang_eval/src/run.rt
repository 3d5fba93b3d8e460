//! How statements end.
use ledger_model::{ChildResult, Step};

/// Statements stop at a step that wasn't taken yet, or go on to their end with what is still to be seen.
#[derive(Drop)]
pub(crate) enum Run<'s> {
    Stopped(Step),
    Went(&'s [ChildResult]),
}

//! What comes next where actions are asked for one after another.
use crate::demand::Demand;
use ledger_terms::Value;

/// The end with a result, or an action.
#[derive(Drop)]
pub(crate) enum Turn {
    End(Value),
    Child(Demand),
}

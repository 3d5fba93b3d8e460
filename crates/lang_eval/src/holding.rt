//! How a value is held.
use ledger_terms::Value;

/// A value that stands elsewhere, or one that was made.
#[derive(Drop)]
pub enum Holding<'a> {
    Given(&'a Value),
    Made(Value),
}

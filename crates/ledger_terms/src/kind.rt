//! The kinds of values.

/// The kind of a value of the contract language.
#[derive(Clone, Copy, PartialEq, Eq)]
pub enum Kind {
    Unit,
    Int,
    Bool,
    Text,
    Party,
    Contract,
    Parties,
}

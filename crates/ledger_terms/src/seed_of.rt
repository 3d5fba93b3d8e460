//! Borrowed seeds of prepared trees.
use crate::name::Name;

/// The participant and the command whose seed a prepared tree takes in place of its own.
#[derive(Clone, Copy, PartialEq)]
pub struct SeedOf {
    pub participant: Name,
    pub command: Name,
}

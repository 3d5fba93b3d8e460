//! How a bound name is kept.
use crate::owner::Owner;
use ledger_terms::{Name, Text};

/// A name by its parts, so that none is put together where values are bound.
#[derive(Drop)]
pub enum Spelling {
    Written(Text),
    Itself,
    Plain(Name),
    Field(Owner, Name),
}

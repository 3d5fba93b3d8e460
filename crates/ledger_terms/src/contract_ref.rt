//! How a client names a contract.

use crate::hash::Hash;
use crate::label::Label;

/// A contract by its id or by its label.
#[derive(Drop)]
pub enum ContractRef {
    Id(Hash),
    Label(Label),
}

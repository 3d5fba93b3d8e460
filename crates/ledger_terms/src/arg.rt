//! What a client hands in as a field or an argument.

use crate::contract_ref::ContractRef;
use crate::list::ListOf;
use crate::value::Value;

/// A field or an argument as it is handed in: a value, or a contract by its reference.
#[derive(Drop)]
pub enum Arg {
    Plain(Value),
    Contract(ContractRef),
}

/// Fields or arguments.
pub type ArgList = ListOf<Arg>;

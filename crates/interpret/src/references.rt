//! The contracts that references name.
ghost use Rattle.std.specs.Prelude.{◌≡◌, IfOk, option_copied};
ghost use Rattle.interpret.specs.Commands.{referenced_values, id_of_known, referenced_id, referenced_value};
ghost use Rattle.interpret.specs.Usable.{find_salt};

use crate::ids::label_seed;
use ledger_terms::{Arg, ArgList, ContractRef, Exact, Hash, KnownContracts, Value, ValueList};
use std::alloc::{AllocError, Global};

fn id_of_salt<K: KnownContracts>(known: &K, salt: &Hash) -> Option<Hash>
    ensures { result ≡ id_of_known (find_salt salt.now (K.rows known.now)) }
{
    match known.find_salt(salt) {
        Some(found) => Some(found.id),
        None => None,
    }
}

/// The id of the contract that a reference names: an id itself, and a label the first known contract whose salt is the seed
/// of the label's action. What the transaction at hand creates is named by no label.
pub(crate) fn referenced_id<K: KnownContracts>(known: &K, contract: &ContractRef) -> Option<Hash>
    ensures { result ≡ referenced_id (K.rows known.now) contract.now }
{
    match contract {
        ContractRef::Id(id) => Some(*id),
        ContractRef::Label(label) => id_of_salt(known, &label_seed(label)),
    }
}

/// The value that is handed in, or the contract that it names.
pub(crate) fn referenced_value<K: KnownContracts>(
    known: &K,
    arg: &Arg,
) -> Result<Option<Value>, AllocError>
    ensures { IfOk result (λ v. v ≡ referenced_value (K.rows known.now) arg.now) }
{
    match arg {
        Arg::Plain(value) => Ok(Some(value.copied()?)),
        Arg::Contract(contract) => match referenced_id(known, contract) {
            Some(id) => Ok(Some(Value::Contract(id))),
            None => Ok(None),
        },
    }
}

/// The values that are handed in, where each reference among them names a contract.
#[tactic(auto, using(crate::proofs::NamedValues::one_more))]
pub(crate) fn referenced_values<K: KnownContracts>(
    alloc: Global,
    known: &K,
    args: &ArgList,
) -> Result<Option<ValueList>, AllocError>
    ensures { IfOk result (λ vs. vs ≡ referenced_values (K.rows known.now) args.now) }
{
    let mut values = ValueList::new(alloc);
    for arg in args.as_slice() {
        match referenced_value(known, arg)? {
            Some(value) => values.push(value)?,
            None => return Ok(None),
        }
    }
    Ok(Some(values))
}

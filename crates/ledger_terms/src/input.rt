//! The contract that a prepared action uses.

use crate::arg::ArgList;
use crate::contract_ref::ContractRef;
use crate::hash::Hash;
use crate::template_name::TemplateName;

/// The input of a prepared Exercise or Fetch: a known contract, or one whose parts are handed in as they are. A forged
/// input without an id has the id of its salt and instance.
#[derive(Drop)]
pub enum Input {
    Known(ContractRef),
    Forged {
        id: Option<ContractRef>,
        salt: Hash,
        template: TemplateName,
        fields: ArgList,
    },
}

//! The parties of a contract.
use ledger_terms::PartySet;

/// The signatories and the observers of a contract.
#[derive(Drop)]
pub struct ContractParties {
    pub signatories: PartySet,
    pub observers: PartySet,
}

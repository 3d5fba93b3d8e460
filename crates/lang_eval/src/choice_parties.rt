//! The parties of a choice.
use ledger_terms::PartySet;

/// The controllers and the observers of a call of a choice.
#[derive(Drop)]
pub struct ChoiceParties {
    pub controllers: PartySet,
    pub observers: PartySet,
}

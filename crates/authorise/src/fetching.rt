//! Who may fetch.
ghost use Rattle.std.specs.Prelude.{◌≡◌, ◌++◌, ◌&&◌, ◌||◌, not};
ghost use Rattle.std.specs.List.{list_all};
ghost use Rattle.ledger_terms.specs.Parties.{has_party};
ghost use Rattle.ledger_model.specs.Parties.{within};
ghost use Rattle.ledger_model.specs.Authority.{same_members};

use lang_eval::ContractParties;
use ledger_terms::{Name, PartySet};

/// Whether a party acts, if it is an authoriser.
fn is_acting(party: Name, by: &PartySet, actors: &PartySet) -> bool
    ensures { result ≡ (not (has_party by.now party) || has_party actors.now party) }
{
    !by.contains(party) || actors.contains(party)
}

/// Whether a party is a stakeholder and an authoriser.
fn is_entitled(party: Name, contract: &ContractParties, by: &PartySet) -> bool
    ensures { result ≡ (has_party by.now party && (has_party contract.now.signatories party || has_party contract.now.observers party)) }
{
    by.contains(party)
        && (contract.signatories.contains(party) || contract.observers.contains(party))
}

/// Whether those of the parties that are authorisers are among the actors.
fn are_acting(parties: &PartySet, by: &PartySet, actors: &PartySet) -> bool
    ensures { result ≡ list_all (λ a. not (has_party by.now a) || has_party actors.now a) parties.now }
{
    parties
        .as_slice()
        .iter()
        .all(|party| is_acting(*party, by, actors))
}

/// Whether each of the actors is a stakeholder and an authoriser.
fn are_entitled(actors: &PartySet, contract: &ContractParties, by: &PartySet) -> bool
    ensures { result ≡ list_all (λ a. has_party by.now a && (has_party contract.now.signatories a || has_party contract.now.observers a)) actors.now }
{
    actors
        .as_slice()
        .iter()
        .all(|actor| is_entitled(*actor, contract, by))
}

/// Whether the actors are exactly the stakeholders among the authorisers.
pub(crate) fn are_present_stakeholders(
    actors: &PartySet,
    contract: &ContractParties,
    by: &PartySet,
) -> bool
    ensures { result ≡ same_members actors.now (within (contract.now.signatories ++ contract.now.observers) by.now) }
{
    let entitled = are_entitled(actors, contract, by);
    let signatories = are_acting(&contract.signatories, by, actors);
    let observers = are_acting(&contract.observers, by, actors);
    entitled && (signatories && observers)
}

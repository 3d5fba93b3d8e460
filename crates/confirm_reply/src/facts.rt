//! What the facts say of a contract.
ghost use Rattle.std.specs.Prelude.{◌≡◌, option_copied};
ghost use Rattle.confirm_reply.specs.Facts.{fact_on, is_known_locked, known_status};

use crate::id_facts::{IdFacts, IdFactsList};
use ledger_model::Status;
use ledger_terms::Hash;

fn fact_on(facts: &IdFactsList, id: Hash) -> Option<&IdFacts>
    ensures { option_copied result ≡ fact_on facts.now id }
{
    facts.as_slice().iter().find(|fact| fact.id == id)
}

/// The status of a contract by these facts, which is unknown where there is none on it.
pub(crate) fn status_of(facts: &IdFactsList, id: Hash) -> Status
    ensures { result ≡ known_status facts.now id }
{
    match fact_on(facts, id) {
        Some(fact) => fact.status,
        None => Status::Unknown,
    }
}

/// Whether a request that isn't decided holds a contract, by these facts. False where there is none on it.
pub(crate) fn is_locked(facts: &IdFactsList, id: Hash) -> bool
    ensures { result ≡ is_known_locked facts.now id }
{
    match fact_on(facts, id) {
        Some(fact) => fact.locked,
        None => false,
    }
}

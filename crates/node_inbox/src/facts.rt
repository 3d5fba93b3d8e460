//! What was known of contracts when a request was read.
ghost use Rattle.std.specs.Prelude.{◌≡◌, ◌<◌, map, slice_get, slice_set, Some, vec_len};
ghost use Rattle.node_inbox.specs.Acts.{fact_in};

use confirm_reply::{IdFacts, IdFactsList};
use inbox_registry::Registry;

fn fact_of(registry: &Registry, fact: &IdFacts) -> IdFacts
    ensures { result ≡ fact_in registry.now fact.now }
{
    IdFacts {
        id: fact.id,
        status: registry.status(&fact.id),
        locked: registry.store().locked(&fact.id),
    }
}

fn fill(registry: &Registry, facts: &mut Vec<IdFacts>)
    ensures { facts.new.items ≡ map (fact_in registry.now) facts.old.items }
{
    for at in 0..facts.len() {
        facts[at] = fact_of(registry, &facts[at]);
    }
}

/// These facts, filled in with what the registry knows of the contracts that they are on. Takes no memory.
pub fn filled(registry: &Registry, facts: IdFactsList) -> IdFactsList
    ensures { result ≡ map (fact_in registry.now) facts }
{
    let mut kept = facts.into_vec();
    fill(registry, &mut kept);
    IdFactsList::of(kept)
}

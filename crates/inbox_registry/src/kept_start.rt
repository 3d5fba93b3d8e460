//! What an inbox left at its base.
ghost use Rattle.std.specs.Prelude.{◌≡◌, ◌++◌, ◌∷◌, [], false, IfOk, OnOk};
ghost use Rattle.std.specs.List.{list_any};
ghost use Rattle.std.specs.Str.{bytes_eq};
ghost use Rattle.indexmap.specs.IndexMap.{keys};
ghost use Rattle.ledger_terms.specs.Parties.{IsRising};
ghost use Rattle.pruned_inbox.specs.Start.{is_gone, no_start};

use indexmap::IndexMap;
use ledger_terms::{ActiveRowList, Hash, HashList};
use std::alloc::{AllocError, Global};
use std::marker::Model;

/// What an inbox left at its base: the contracts active there, in order of creation, and the ids of the others that requests below it
/// create or consume. Of an inbox that has forgotten nothing there are none.
#[derive(Drop)]
pub struct KeptStart {
    active: ActiveRowList,
    gone: IndexMap<Hash, ()>,
}

impl Model for KeptStart {
    ghost use Rattle.indexmap.specs.IndexMap.{keys};
    ghost use Rattle.pruned_inbox.specs.Start.{Start};

    ghost Value = { Start };

    ghost view = { λ s. record { active = s.active; gone = keys s.gone } };

    ghost use Rattle.ledger_terms.specs.Parties.{IsRising};

    ghost invariant = { λ s. IsRising (keys s.gone) };
}

// One more id, behind the others.
fn push_id(ids: &mut IndexMap<Hash, ()>, id: Hash) -> Result<(), AllocError>
    requires { list_any (bytes_eq id) (keys ids.old) ≡ false }
    ensures { OnOk result (keys ids.new ≡ keys ids.old ++ id ∷ []) }
{
    let _ = ids.insert(id, ())?;
    Ok(())
}

// Ids as a set, in their order.
fn set_of(alloc: Global, ids: &HashList) -> Result<IndexMap<Hash, ()>, AllocError>
    requires { IsRising ids.now }
    ensures { IfOk result (λ set. keys set ≡ ids.now) }
{
    let mut set = IndexMap::new(alloc);
    for id in ids.as_slice() {
        push_id(&mut set, *id)?;
    }
    Ok(set)
}

impl KeptStart {
    /// The start of an inbox that has forgotten nothing: no contracts and no ids.
    pub fn new(alloc: Global) -> KeptStart
        ensures { result ≡ no_start }
    {
        KeptStart {
            active: ActiveRowList::new(alloc),
            gone: IndexMap::new(alloc),
        }
    }

    /// The start with these active contracts, in order of creation, and these ids of contracts that are gone, which have to rise. An error says that
    /// there is no memory.
    pub fn of(
        alloc: Global,
        active: ActiveRowList,
        gone: &HashList,
    ) -> Result<KeptStart, AllocError>
        requires { IsRising gone.now }
        ensures active { IfOk result (λ start. start.active ≡ active) }
        ensures gone { IfOk result (λ start. start.gone ≡ gone.now) }
    {
        let gone = set_of(alloc, gone)?;
        Ok(KeptStart { active, gone })
    }

    /// The contracts that were active at the base, in order of creation.
    pub fn active(&self) -> &ActiveRowList
        ensures { result.now ≡ self.now.active }
    {
        &self.active
    }

    /// The ids of the contracts that are gone, in rising order.
    pub fn gone(&self) -> &[Hash]
        ensures ids { result.now ≡ self.now.gone }
        ensures ascend { IsRising self.now.gone }
    {
        self.gone.keys().as_slice()
    }

    /// Whether the contract with this id is gone: requests below the base create or consume it, and it isn't active there.
    pub fn is_gone(&self, id: &Hash) -> bool
        ensures { result ≡ is_gone self.now id.now }
    {
        self.gone.contains_key(id)
    }
}

//! The ids of contracts with a hosted stakeholder.
ghost use Rattle.std.specs.Prelude.{◌≡◌, ◌+◌, ◌<◌, ◌≤◌, ◌||◌, ℕ, [], List, OnOk};
ghost use Rattle.std.specs.Str.{bytes_eq};
ghost use Rattle.prepare_request.specs.Hosted.{is_among};

use indexmap::IndexMap;
use ledger_terms::Hash;
use std::alloc::{AllocError, Global};
use std::marker::Model;

/// The ids of those contracts of a store that have a stakeholder hosted by its participant. Who is one is asked once, when a
/// contract's row is written, since that takes memory and a look-up may take none.
#[derive(Drop)]
pub struct HostedIds {
    ids: IndexMap<Hash, ()>,
    room: usize,
}

impl Model for HostedIds {
    ghost use Rattle.std.specs.Prelude.{◌≤◌};
    ghost use Rattle.indexmap.specs.IndexMap.{keys};
    ghost use Rattle.contract_store.specs.Stored.{map_room};
    ghost use Rattle.prepare_request.specs.Hosted.{IdSet};

    ghost Value = { IdSet };

    ghost view = { λ s. record { ids = keys s.ids; spare = s.room } };

    ghost invariant = { λ s. s.room ≤ map_room s.ids };
}

impl HostedIds {
    /// No ids, and room for none without memory.
    pub fn new(alloc: Global) -> HostedIds
        ensures ids { result.ids ≡ [] }
        ensures spare { result.spare ≡ 0 }
    {
        HostedIds {
            ids: IndexMap::new(alloc),
            room: 0,
        }
    }

    /// Whether the id is one of them, so that its contract has a stakeholder hosted by the participant.
    pub fn contains(&self, id: &Hash) -> bool
        ensures { result ≡ is_among self.now.ids id.now }
    {
        self.ids.contains_key(id)
    }

    /// Makes room for `count` more ids, which `insert` then puts in without memory.
    pub fn reserve(&mut self, count: usize) -> Result<(), AllocError>
        ensures ids { self.new.ids ≡ self.old.ids }
        ensures spare { self.old.spare ≤ self.new.spare }
        ensures room { OnOk result (count ≤ self.new.spare) }
    {
        self.ids.reserve(count)?;
        if self.room < count {
            self.room = count;
        }
        Ok(())
    }

    /// Puts an id among them; nothing changes for one that is there already. Room was made for it, so it takes no memory.
    pub fn insert(&mut self, id: Hash)
        requires { 0 < self.old.spare }
        ensures among { (c : List ℕ) → is_among self.new.ids c ≡ (bytes_eq id c || is_among self.old.ids c) }
        ensures spare { self.old.spare ≤ self.new.spare + 1 }
    {
        let _ = self.ids.insert(id, ()).unwrap();
        self.room -= 1;
    }
}

//! What a participant has of the entries that it read, by their places.
ghost use Rattle.std.specs.Prelude.{◌≡◌, ◌+◌, ◌<◌, ◌≤◌, ◌^◌, ◌++◌, ◌∷◌, ℕ, [], false, drop, get_or, length, option_copied, slice_get, OnOk};
ghost use Rattle.pruned_inbox.specs.Received.{is_received_at};
ghost use Rattle.node_inbox.specs.Items.{model_items};
ghost use Rattle.node_inbox.specs.KeptItems.{content_in, silent_kept, time_in};

use crate::item_ref::ItemRef;
use crate::kept_item::{KeptContent, KeptItem};
use std::alloc::{AllocError, Global};
use std::marker::Model;

/// The items of an inbox that begins at a base. Contracts see one for each entry, and how many more can be put behind them without
/// memory; of those below the base nothing but a time is known, and nothing is kept.
#[derive(Drop)]
pub struct KeptItems {
    base: u64,
    base_time: u64,
    silent: KeptContent,
    items: Vec<KeptItem>,
}

impl Model for KeptItems {
    ghost use Rattle.ledger_terms.specs.Rooms.{Room};
    ghost use Rattle.std.specs.Prelude.{◌≡◌, ◌+◌, ◌-◌, ◌<◌, ◌≤◌, ◌^◌, ◌++◌};
    ghost use Rattle.std.specs.Vec.{vec_capacity, vec_len};
    ghost use Rattle.node_inbox.specs.KeptItems.{silent_kept};
    ghost use Rattle.node_inbox.specs.declared.kept_item.KeptItem.{KeptItem as Item};
    ghost use Rattle.node_inbox.specs.declared.kept_item.KeptContent.TheVariants.{Nothing};

    ghost Value = { Room Item };

    ghost use Rattle.ledger_terms.specs.Forest.{coded_forest};
    ghost use Rattle.std.specs.Coded.{codes};
    ghost use Rattle.view_split.specs.Holed.{coded_holed};

    ghost coded = { Prim.hlevel (codes, coded_forest, coded_holed) };

    ghost view = { λ s. record {
      items = silent_kept s.base s.base_time ++ s.items.items;
      spare = vec_capacity s.items - vec_len s.items;
    } };

    ghost invariant = { λ s. (s.base < 2 ^ 63) × (s.base ≤ s.base_time + 1) × (s.silent ≡ Nothing) };
}

impl KeptItems {
    /// The items of an inbox that begins at a base: those below it, the last of which has the time `base_time` in microseconds, and no others yet.
    pub fn at(alloc: Global, base: u64, base_time: u64) -> KeptItems
        requires few { base < 2 ^ 63 }
        requires early { base ≤ base_time + 1 }
        ensures { result.items ≡ silent_kept base base_time }
    {
        KeptItems {
            base,
            base_time,
            silent: KeptContent::Nothing,
            items: Vec::new(alloc),
        }
    }

    /// Where it takes its memory from.
    pub fn allocator(&self) -> &Global {
        self.items.allocator()
    }

    /// The base: the place below which nothing is kept.
    pub fn base(&self) -> u64
        ensures within { result ≤ length self.now.items }
        ensures silent { (k : ℕ) → k < result → is_received_at (model_items self.now.items) k ≡ false }
    {
        self.base
    }

    /// How many items there are, with those below the base: the place of the next one.
    pub fn len(&self) -> u64
        ensures { result ≡ length self.now.items }
    {
        self.base + self.items.len() as u64
    }

    /// What the entry at a place brought: `Nothing` below the base, and None where the entry wasn't read.
    pub fn content(&self, place: u64) -> Option<&KeptContent>
        ensures { option_copied result ≡ content_in (slice_get self.now.items place) }
    {
        if place < self.base {
            return Some(&self.silent);
        }
        match self.items.get((place - self.base) as usize) {
            Some(item) => Some(&item.content),
            None => None,
        }
    }

    /// The time of the entry at a place, in microseconds, and 0 where it wasn't read.
    pub fn time(&self, place: u64) -> u64
        ensures { result ≡ time_in (slice_get self.now.items place) }
    {
        if place < self.base {
            return self.base_time - (self.base - 1 - place);
        }
        match self.items.get((place - self.base) as usize) {
            Some(item) => item.time,
            None => 0,
        }
    }

    /// The item at a place that was read.
    pub fn item(&self, place: u64) -> ItemRef<'_>
        requires { place < length self.now.items }
        ensures { result ≡ get_or self.now.items place result }
    {
        if place < self.base {
            return ItemRef {
                time: self.base_time - (self.base - 1 - place),
                content: &self.silent,
            };
        }
        let item = &self.items[(place - self.base) as usize];
        ItemRef {
            time: item.time,
            content: &item.content,
        }
    }

    /// Makes room for one more item. An error leaves all as it was.
    pub fn reserve(&mut self) -> Result<(), AllocError>
        ensures items { self.new.items ≡ self.old.items }
        ensures room { OnOk result (0 < self.new.spare) }
    {
        self.items.reserve(1)
    }

    /// Puts an item behind the others, in room that was made ahead. Takes no memory.
    pub fn push_within(&mut self, item: KeptItem)
        requires { 0 < self.old.spare }
        ensures { self.new.items ≡ self.old.items ++ item ∷ [] }
    {
        self.items.push_reserved(item);
    }

    /// The base, and the items from there on.
    pub fn into_kept(self) -> (u64, Vec<KeptItem>)
        ensures within { result.0 ≤ length self.items }
        ensures silent { (k : ℕ) → k < result.0 → is_received_at (model_items self.items) k ≡ false }
        ensures kept { (result.1).items ≡ drop result.0 self.items }
    {
        let KeptItems { base, items, .. } = self;
        (base, items)
    }
}

//! Lists with room that was made ahead.
ghost use Rattle.std.specs.Prelude.{◌≡◌, ◌≤◌, ◌<◌, ◌+◌, ◌++◌, ◌∷◌, [], length, OnOk, slice_get, option_copied};

use crate::list::ListOf;
use std::alloc::{AllocError, Global};
use std::marker::Model;

/// A list of items with room that was made ahead, which contracts see as the items and how many more can be put at the end
/// without memory. What has to answer without memory makes room first, and then puts its items within it.
#[derive(Drop)]
pub struct RoomyList<T> {
    items: Vec<T>,
}

impl<T> Model for RoomyList<T> {
    ghost use Rattle.ledger_terms.specs.Rooms.{Room};
    ghost use Rattle.std.specs.Prelude.{◌-◌};
    ghost use Rattle.std.specs.Vec.{vec_capacity, vec_len};

    ghost Value = { Room T };

    ghost view = { λ l. record { items = l.items.items; spare = vec_capacity l.items - vec_len l.items } };
}

impl<T> RoomyList<T> {
    /// The empty list, without room for any item; it takes no memory.
    pub fn new(alloc: Global) -> RoomyList<T>
        ensures { result.items ≡ [] }
    {
        RoomyList {
            items: Vec::new(alloc),
        }
    }

    /// The list with a list's items, which are moved and not copied. Its room is what the memory of these has left, of which the contract says nothing.
    pub fn of(list: ListOf<T>) -> RoomyList<T>
        ensures { result.items ≡ list }
    {
        RoomyList {
            items: list.into_vec(),
        }
    }

    /// The items as a plain list; they are moved and not copied.
    pub fn into_list(self) -> ListOf<T>
        ensures { result ≡ self.items }
    {
        let RoomyList { items } = self;
        ListOf::of(items)
    }

    /// The allocator of the list, with which a caller makes other values beside it.
    pub fn allocator(&self) -> &Global {
        self.items.allocator()
    }

    /// How many items there are.
    pub fn len(&self) -> usize
        ensures { result ≡ length self.now.items }
    {
        self.items.len()
    }

    /// How many more items there is room for.
    pub fn spare(&self) -> usize
        ensures { result ≡ self.now.spare }
    {
        self.items.capacity() - self.items.len()
    }

    /// The item at the index `at`, counted from 0, and None where the list is shorter.
    pub fn get(&self, at: usize) -> Option<&T>
        ensures { option_copied result ≡ slice_get self.now.items at }
    {
        self.items.get(at)
    }

    /// The items as a slice.
    pub fn as_slice(&self) -> &[T]
        ensures { result.now ≡ self.now.items }
    {
        self.items.as_slice()
    }

    /// Makes room for `more` items. An error leaves the room as it was.
    pub fn reserve(&mut self, more: usize) -> Result<(), AllocError>
        ensures items { self.new.items ≡ self.old.items }
        ensures spare { self.old.spare ≤ self.new.spare }
        ensures room { OnOk result (more ≤ self.new.spare) }
    {
        self.items.reserve(more)
    }

    /// Puts an item at the end, in room that was made ahead: takes no memory and cannot fail.
    pub fn push_within(&mut self, item: T)
        requires room { 0 < self.old.spare }
        ensures items { self.new.items ≡ self.old.items ++ item ∷ [] }
        ensures spare { self.new.spare + 1 ≡ self.old.spare }
    {
        self.items.push_reserved(item);
    }
}

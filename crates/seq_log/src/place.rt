//! Where messages stand.
ghost use Rattle.std.specs.Prelude.{◌≡◌, ◌+◌, ◌<◌, ◌^◌, ◌++◌, ◌∷◌, [], ℕ, List, None, Some, length, if◌then◌else◌};
ghost use Rattle.std.specs.List.{list_any};
ghost use Rattle.indexmap.specs.IndexMap.{get, spare};
ghost use Rattle.world_model.specs.Messages.{Entry};
ghost use Rattle.world_model.specs.Sequencing as s;
ghost use Rattle.seq_log.specs.Keys.{key_of, key_eq, is_key};
ghost use Rattle.seq_log.specs.declared.key.Key.{Key};
ghost use Rattle.seq_log.specs.Faults.{Leads, next_time};

use crate::key::{Key, key_of};
use canton_model::Message;
use indexmap::IndexMap;

/// The place at which a message of the same key stands in the log, and None where none does. A Tick never stands there.
pub fn place_of(places: &IndexMap<Key, u64>, message: &Message) -> Option<u64>
    ensures { (list : List Entry) → Leads list (λ k. get key_eq places.now k) → result ≡ s.first_from (s.is_same message.now) 0 list }
{
    match key_of(message) {
        Some(key) => place_behind(places, &key),
        None => None,
    }
}

fn place_behind(places: &IndexMap<Key, u64>, key: &Key) -> Option<u64>
    ensures { result ≡ get key_eq places.now key.now }
{
    places.get(key).copied()
}

/// Whether a message of this key stands in the log whose places these are.
pub fn stands(places: &IndexMap<Key, u64>, key: &Key) -> bool
    ensures { (list : List Entry) → Leads list (λ k. get key_eq places.now k) → result ≡ list_any (λ (e : Entry). is_key key.now e.message) list }
{
    place_behind(places, key).is_some()
}

fn put(places: &mut IndexMap<Key, u64>, key: Key, place: u64)
    requires { 0 < spare places.old }
    ensures { (q : Key) → get key_eq places.new q ≡ (if key_eq key q then Some place else get key_eq places.old q) }
{
    let _ = places.insert(key, place).unwrap();
}

/// Notes that the message of a new entry, with this key, stands at `place`. Where the key is None, as of a Tick, nothing is noted. Room was made for
/// it, so it takes no memory.
pub fn put_place(places: &mut IndexMap<Key, u64>, key: Option<Key>, place: u64)
    requires { 0 < spare places.old }
    ensures { (list : List Entry) (e : Entry) → Leads list (λ k. get key_eq places.old k) → length list ≡ place → key ≡ key_of e.message
        → s.first_from (s.is_same e.message) 0 list ≡ None → Leads (list ++ e ∷ []) (λ k. get key_eq places.new k) }
{
    if let Some(key) = key {
        put(places, key, place);
    }
}

//! Keys are put into the map, and room is made, before they are needed.
ghost use Rattle.std.specs.Prelude.{◌≡◌, ◌+◌, ◌≤◌, ℕ, List, IsSome, OnOk, vec_len, vec_capacity};
ghost use Rattle.std.specs.List.{All};
ghost use Rattle.std.specs.Str.{bytes_eq};
ghost use Rattle.indexmap.specs.IndexMap.{get};
ghost use Rattle.contract_store.specs.Stored.{Grows, map_room};

use crate::contract_places::ContractPlaces;
use crate::hold::{HashList, KeptHold};
use crate::lookup::add_key;
use crate::row::KeptRow;
use indexmap::IndexMap;
use ledger_terms::{Hash, KnownList};
use std::alloc::AllocError;

/// Puts the ids of contracts into the map.
fn add_known(ids: &mut IndexMap<Hash, ContractPlaces>, known: &KnownList) -> Result<(), AllocError>
    ensures grows { Grows (λ c. get bytes_eq ids.old c) (λ c. get bytes_eq ids.new c) }
    ensures added { OnOk result (All (λ k. IsSome (get bytes_eq ids.new k.id)) known.now) }
{
    'known: for k in known.as_slice() {
        add_key(ids, k.id)?;
    }
    Ok(())
}

/// Puts ids into the map.
fn add_hashes(ids: &mut IndexMap<Hash, ContractPlaces>, hashes: &HashList) -> Result<(), AllocError>
    ensures grows { Grows (λ c. get bytes_eq ids.old c) (λ c. get bytes_eq ids.new c) }
    ensures added { OnOk result (All (λ h. IsSome (get bytes_eq ids.new h)) hashes.now) }
{
    'hashes: for hash in hashes.as_slice() {
        add_key(ids, *hash)?;
    }
    Ok(())
}

/// Puts the ids of these contracts, and these ids, into the map, so that their rows and holds take no memory there. After an error some of them may
/// be there.
pub fn add_all(
    ids: &mut IndexMap<Hash, ContractPlaces>,
    known: &KnownList,
    hashes: &HashList,
) -> Result<(), AllocError>
    ensures grows { Grows (λ c. get bytes_eq ids.old c) (λ c. get bytes_eq ids.new c) }
    ensures known { OnOk result (All (λ k. IsSome (get bytes_eq ids.new k.id)) known.now) }
    ensures hashes { OnOk result (All (λ h. IsSome (get bytes_eq ids.new h)) hashes.now) }
{
    add_known(ids, known)?;
    add_hashes(ids, hashes)?;
    Ok(())
}

/// Makes room for `count` more rows and holds, and for as many salts and places in the maps. After an error some of them may have room.
pub fn make_room(
    rows: &mut Vec<KeptRow>,
    holds: &mut Vec<KeptHold>,
    salts: &mut IndexMap<Hash, usize>,
    places: &mut IndexMap<u64, usize>,
    count: usize,
) -> Result<(), AllocError>
    ensures rows { rows.new.items ≡ rows.old.items }
    ensures holds { holds.new.items ≡ holds.old.items }
    ensures salts { salts.new.entries ≡ salts.old.entries }
    ensures places { places.new.entries ≡ places.old.entries }
    ensures row_len { vec_len rows.new ≡ vec_len rows.old }
    ensures hold_len { vec_len holds.new ≡ vec_len holds.old }
    ensures row_room { vec_capacity rows.old ≤ vec_capacity rows.new }
    ensures hold_room { vec_capacity holds.old ≤ vec_capacity holds.new }
    ensures salt_room { map_room salts.old ≤ map_room salts.new }
    ensures place_room { map_room places.old ≤ map_room places.new }
    ensures room { OnOk result ((vec_len rows.new + count ≤ vec_capacity rows.new) × (vec_len holds.new + count ≤ vec_capacity holds.new)
        × (count ≤ map_room salts.new) × (count ≤ map_room places.new)) }
{
    rows.reserve(count)?;
    holds.reserve(count)?;
    salts.reserve(count)?;
    places.reserve(count)?;
    Ok(())
}

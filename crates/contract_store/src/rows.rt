//! The rows, in a vector, and the chains through it.
ghost use Rattle.std.specs.Prelude.{◌≡◌, ◌+◌, ◌<◌, ◌≤◌, ℕ, [], ◌∷◌, ◌++◌, List, None, Some, find, map, option_copied, IsSome, slice_get, slice_set};
ghost use Rattle.std.specs.Prelude.{vec_len, vec_capacity};
ghost use Rattle.std.specs.Str.{bytes_eq};
ghost use Rattle.indexmap.specs.IndexMap.{get, keys, spare};
ghost use Rattle.contract_store.specs.Leads.{row_behind, hold_behind};
ghost use Rattle.contract_store.specs.Rows.{is_of, row_of, smaller, with_created, with_consumed, created, consumed};
ghost use Rattle.contract_store.specs.KeptRows.{rows_of, LeadsById, LeadsToRows};
ghost use Rattle.contract_store.specs.declared.row.KeptRow.{KeptRow};

use crate::contract_places::ContractPlaces;
use crate::lookup::{put_row, put_salt, row_behind};
use crate::row::{KeptRow, StoreRow};
use indexmap::IndexMap;
use ledger_terms::{Hash, Known};

/// The row at an index of the vector, and None where there are fewer.
pub fn row_at(kept: &Vec<KeptRow>, at: usize) -> Option<&StoreRow>
    ensures { option_copied result ≡ slice_get (rows_of kept.now.items) at }
{
    match kept.get(at) {
        Some(row) => Some(&row.row),
        None => None,
    }
}

/// The row of the contract with this id, and None where it has none.
pub fn find_row<'a>(
    kept: &'a Vec<KeptRow>,
    ids: &IndexMap<Hash, ContractPlaces>,
    id: &Hash,
) -> Option<&'a StoreRow>
    requires { LeadsById kept.now.items (λ c. row_behind (get bytes_eq ids.now c)) }
    ensures { option_copied result ≡ row_of id.now (rows_of kept.now.items) }
{
    match row_behind(ids, id) {
        Some(at) => row_at(kept, at),
        None => None,
    }
}

// The smaller of two places.
fn smaller(before: Option<u64>, place: u64) -> u64
    ensures { result ≡ smaller before place }
{
    match before {
        Some(before) => { if before < place { before } else { place } }
        None => place,
    }
}

fn created_row(row: &mut KeptRow, place: u64)
    ensures { row.new ≡ record row.old { row = with_created place row.old.row } }
{
    let at = smaller(row.row.created_at, place);
    row.row.created_at = Some(at);
}

fn consumed_row(row: &mut KeptRow, place: u64)
    ensures { row.new ≡ record row.old { row = with_consumed place row.old.row } }
{
    let at = smaller(row.row.consumed_at, place);
    row.row.consumed_at = Some(at);
}

fn set_created(kept: &mut Vec<KeptRow>, at: usize, place: u64)
    requires { at < vec_len kept.old }
    ensures row { (k : KeptRow) → slice_get kept.old.items at ≡ Some k
        → kept.new.items ≡ slice_set kept.old.items at (record k { row = with_created place k.row }) }
    ensures len { vec_len kept.new ≡ vec_len kept.old }
    ensures capacity { vec_capacity kept.new ≡ vec_capacity kept.old }
{
    created_row(&mut kept[at], place);
}

fn set_consumed(kept: &mut Vec<KeptRow>, at: usize, place: u64)
    requires { at < vec_len kept.old }
    ensures row { (k : KeptRow) → slice_get kept.old.items at ≡ Some k
        → kept.new.items ≡ slice_set kept.old.items at (record k { row = with_consumed place k.row }) }
    ensures len { vec_len kept.new ≡ vec_len kept.old }
    ensures capacity { vec_capacity kept.new ≡ vec_capacity kept.old }
{
    consumed_row(&mut kept[at], place);
}

// Puts one more row at the end, of a contract that has none. Room was made for it, so it takes no memory.
fn push_row(
    kept: &mut Vec<KeptRow>,
    ids: &mut IndexMap<Hash, ContractPlaces>,
    salts: &mut IndexMap<Hash, usize>,
    row: StoreRow,
)
    requires room { vec_len kept.old < vec_capacity kept.old }
    requires id { IsSome (get bytes_eq ids.old row.known.id) }
    requires spare { 0 < spare salts.old }
    requires leads { LeadsToRows kept.old.items (λ c. row_behind (get bytes_eq ids.old c)) (λ c. get bytes_eq salts.old c) }
    requires absent { row_behind (get bytes_eq ids.old row.known.id) ≡ None }
    ensures leads { LeadsToRows kept.new.items (λ c. row_behind (get bytes_eq ids.new c)) (λ c. get bytes_eq salts.new c) }
    ensures rows { rows_of kept.new.items ≡ rows_of kept.old.items ++ row ∷ [] }
    ensures holds { (c : List ℕ) → hold_behind (get bytes_eq ids.new c) ≡ hold_behind (get bytes_eq ids.old c) }
    ensures keys { keys ids.new ≡ keys ids.old }
    ensures spare { spare salts.old ≤ spare salts.new + 1 }
    ensures len { vec_len kept.new ≡ vec_len kept.old + 1 }
    ensures capacity { vec_capacity kept.old ≤ vec_capacity kept.new }
{
    let at = kept.len();
    let Known { id, salt, .. } = &row.known;
    let id = *id;
    let salt = *salt;
    let before = put_salt(salts, salt, at);
    kept.push(KeptRow { row, before }).unwrap();
    put_row(ids, id, at);
}

/// Notes that the request at `place` creates the contract `known`: in its row, or in a new one at the end of `kept`, to which `ids` and `salts` then
/// lead. Room was made, so it takes no memory.
pub fn create_row(
    kept: &mut Vec<KeptRow>,
    ids: &mut IndexMap<Hash, ContractPlaces>,
    salts: &mut IndexMap<Hash, usize>,
    known: Known,
    place: u64,
)
    requires room { vec_len kept.old < vec_capacity kept.old }
    requires id { IsSome (get bytes_eq ids.old known.id) }
    requires spare { 0 < spare salts.old }
    requires leads { LeadsToRows kept.old.items (λ c. row_behind (get bytes_eq ids.old c)) (λ c. get bytes_eq salts.old c) }
    ensures leads { LeadsToRows kept.new.items (λ c. row_behind (get bytes_eq ids.new c)) (λ c. get bytes_eq salts.new c) }
    ensures rows { rows_of kept.new.items ≡ created known place (rows_of kept.old.items) }
    ensures holds { (c : List ℕ) → hold_behind (get bytes_eq ids.new c) ≡ hold_behind (get bytes_eq ids.old c) }
    ensures keys { keys ids.new ≡ keys ids.old }
    ensures spare { spare salts.old ≤ spare salts.new + 1 }
    ensures len { vec_len kept.new ≤ vec_len kept.old + 1 }
    ensures capacity { vec_capacity kept.old ≤ vec_capacity kept.new }
{
    match row_behind(ids, &known.id) {
        Some(at) => set_created(kept, at, place),
        None => push_row(
            kept,
            ids,
            salts,
            StoreRow {
                known,
                created_at: Some(place),
                consumed_at: None,
            },
        ),
    }
}

/// Notes that the request at `place` consumes the contract `known`: in its row, or in a new one at the end of `kept`, to which `ids` and `salts` then
/// lead. Room was made, so it takes no memory.
pub fn consume_row(
    kept: &mut Vec<KeptRow>,
    ids: &mut IndexMap<Hash, ContractPlaces>,
    salts: &mut IndexMap<Hash, usize>,
    known: Known,
    place: u64,
)
    requires room { vec_len kept.old < vec_capacity kept.old }
    requires id { IsSome (get bytes_eq ids.old known.id) }
    requires spare { 0 < spare salts.old }
    requires leads { LeadsToRows kept.old.items (λ c. row_behind (get bytes_eq ids.old c)) (λ c. get bytes_eq salts.old c) }
    ensures leads { LeadsToRows kept.new.items (λ c. row_behind (get bytes_eq ids.new c)) (λ c. get bytes_eq salts.new c) }
    ensures rows { rows_of kept.new.items ≡ consumed known place (rows_of kept.old.items) }
    ensures holds { (c : List ℕ) → hold_behind (get bytes_eq ids.new c) ≡ hold_behind (get bytes_eq ids.old c) }
    ensures keys { keys ids.new ≡ keys ids.old }
    ensures spare { spare salts.old ≤ spare salts.new + 1 }
    ensures len { vec_len kept.new ≤ vec_len kept.old + 1 }
    ensures capacity { vec_capacity kept.old ≤ vec_capacity kept.new }
{
    match row_behind(ids, &known.id) {
        Some(at) => set_consumed(kept, at, place),
        None => push_row(
            kept,
            ids,
            salts,
            StoreRow {
                known,
                created_at: None,
                consumed_at: Some(place),
            },
        ),
    }
}

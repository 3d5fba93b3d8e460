//! The active contracts, by the chain of a salt.
ghost use Rattle.std.specs.Prelude.{◌≡◌, ◌<◌, ◌&&◌, if◌then◌else◌};
ghost use Rattle.std.specs.Prelude.{None, Some, map, option_map, option_copied};
ghost use Rattle.std.specs.Prelude.{slice_get, vec_len};
ghost use Rattle.std.specs.Str.{bytes_eq};
ghost use Rattle.indexmap.specs.IndexMap.{get};
ghost use Rattle.contract_store.specs.Chains.{Chains};
ghost use Rattle.contract_store.specs.KeptRows.{rows_of, salt_link};
ghost use Rattle.contract_store.specs.Active.{active, sooner, earliest, active_at};
ghost use Rattle.contract_store.specs.declared.row.KeptRow.{KeptRow};

use crate::contract_test::ContractTest;
use crate::lookup::salt_behind;
use crate::row::{KeptRow, StoreRow};
use indexmap::IndexMap;
use ledger_terms::{Hash, Known};

/// The place of the request that created a row's contract, where the contract is active; else None.
pub fn active_since(row: &StoreRow) -> Option<u64>
    ensures { result ≡ option_map (λ a. a.created_at) (active row.now) }
{
    match row.consumed_at {
        Some(_) => None,
        None => row.created_at,
    }
}

// The index of the row before this one on the chain of its salt, and None where it is the first.
fn before_row(kept: &Vec<KeptRow>, at: usize) -> Option<usize>
    requires { at < vec_len kept.now }
    ensures { (k : KeptRow) → slice_get kept.now.items at ≡ Some k → result ≡ k.before }
{
    kept[at].before
}

// The index of the active contract that was created first, of the row at `at` and the best so far. A row whose contract isn't active doesn't count.
fn sooner(kept: &Vec<KeptRow>, at: usize, best: Option<usize>) -> Option<usize>
    requires { at < vec_len kept.now }
    ensures { (k : KeptRow) → slice_get kept.now.items at ≡ Some k → active_at kept.now.items result ≡ sooner (active k.row) (active_at kept.now.items best) }
{
    match (active_since(&kept[at].row), since(kept, best)) {
        (None, _) => best,
        (Some(_), None) => Some(at),
        (Some(here), Some(there)) => { if here <= there { Some(at) } else { best } }
    }
}

// As `sooner` where the contract of the row passes the test, and else the best so far.
fn sooner_passing<T: ContractTest>(
    kept: &Vec<KeptRow>,
    test: &T,
    at: usize,
    best: Option<usize>,
) -> Option<usize>
    requires { at < vec_len kept.now }
    ensures { (k : KeptRow) → slice_get kept.now.items at ≡ Some k → active_at kept.now.items result
        ≡ (if T.passes test.now k.row.known then sooner (active k.row) (active_at kept.now.items best) else active_at kept.now.items best) }
{
    if test.passes(&kept[at].row.known) {
        sooner(kept, at, best)
    } else {
        best
    }
}

fn since(kept: &Vec<KeptRow>, best: Option<usize>) -> Option<u64>
    ensures { result ≡ option_map (λ a. a.created_at) (active_at kept.now.items best) }
{
    match best {
        Some(at) => match kept.get(at) {
            Some(row) => active_since(&row.row),
            None => None,
        },
        None => None,
    }
}

/// The contract of a row, where it is active; else None.
pub fn known_if_active(row: &StoreRow) -> Option<&Known>
    ensures { option_copied result ≡ option_map (λ a. a.known) (active row.now) }
{
    match active_since(row) {
        Some(_) => Some(&row.known),
        None => None,
    }
}

fn known_at(kept: &Vec<KeptRow>, best: Option<usize>) -> Option<&Known>
    ensures { option_copied result ≡ option_map (λ a. a.known) (active_at kept.now.items best) }
{
    match best {
        Some(at) => match kept.get(at) {
            Some(row) => known_if_active(&row.row),
            None => None,
        },
        None => None,
    }
}

/// The active contract with this salt that passes the test and was created first; None where there is none.
pub fn first_with_salt<'a, T: ContractTest>(
    kept: &'a Vec<KeptRow>,
    salts: &IndexMap<Hash, usize>,
    salt: &Hash,
    test: &T,
) -> Option<&'a Known>
    requires { Chains bytes_eq (map salt_link kept.now.items) (λ c. get bytes_eq salts.now c) }
    ensures { option_copied result ≡ option_map (λ a. a.known)
        (earliest (λ k. T.passes test.now k && bytes_eq k.salt salt.now) (rows_of kept.now.items)) }
{
    let mut best = None;
    let mut cursor = salt_behind(salts, salt);
    'back: while let Some(at) = cursor {
        best = sooner_passing(kept, test, at, best);
        cursor = before_row(kept, at);
    }
    known_at(kept, best)
}

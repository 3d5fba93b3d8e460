//! Calls of a store.
ghost use Rattle.std.specs.Prelude.{◌≡◌, ◌<◌, true, OnOk};
ghost use Rattle.contract_store.specs.Stored.{is_ready};

use crate::answer::Answer;
use crate::check::facts::status_word;
use crate::words::Words;
use contract_store::{HashList, Store, StoreRow};
use ledger_terms::{
    Exact, Hash, Instance, Known, KnownContracts, KnownList, Name, TemplateName, ValueList,
};
use std::alloc::{AllocError, Global};

// How many contracts there are.
pub(crate) const CONTRACTS: u64 = 1_000;

/// What is done to a contract.
#[derive(Clone, Copy)]
pub(crate) enum Change {
    Create,
    Consume,
    Hold,
}

/// A hash made of a contract's number, and of `last`, which tells ids from salts.
fn hash_of(number: u64, last: u8) -> Hash {
    let mut bytes = [last; 32];
    bytes[..8].copy_from_slice(&number.to_be_bytes());
    Hash(bytes)
}

/// The id of the contract with this number.
pub(crate) fn id_of(number: u64) -> Hash {
    hash_of(number, 1)
}

/// The salt of the contract with this number.
pub(crate) fn salt_of(number: u64) -> Hash {
    hash_of(number, 2)
}

/// Calls a store, and puts the line and what it tells then at the end.
pub(crate) fn call_store(
    alloc: Global,
    store: &mut Store,
    line: &str,
    mut words: Words<'_>,
    out: &mut Answer,
) {
    out.put(line);
    out.put(" - ");
    match words.next() {
        "contract" => return put_contract(store, words.number(), out),
        "row" => return put_row(store, &mut words, out),
        "create" => out.keep(change_all(alloc, store, Change::Create, &mut words)),
        "consume" => out.keep(change_all(alloc, store, Change::Consume, &mut words)),
        "hold" => out.keep(change_all(alloc, store, Change::Hold, &mut words)),
        _ => store.release(words.number()),
    }
    out.put("rows ");
    out.number(store.len() as u64);
    out.put(" kept ");
    out.number(store.kept_holds() as u64);
    out.put("\n");
}

/// Changes as many contracts as the words say, for the request at one place: the number of the first, what is added for each of
/// the next, how many they are, and the place.
fn change_all(
    alloc: Global,
    store: &mut Store,
    change: Change,
    words: &mut Words<'_>,
) -> Result<(), AllocError> {
    let first = words.number();
    let step = words.number();
    let count = words.number();
    let place = words.number();
    for i in 0..count {
        let number = first.wrapping_add(i.wrapping_mul(step)) % CONTRACTS;
        change_one(alloc, store, change, number, place)?;
    }
    Ok(())
}

/// The contract with this number, an instance of a template `Note` without fields.
fn known_of(alloc: Global, number: u64) -> Result<Known, AllocError> {
    let package = Name::read("Note").ok_or(AllocError)?;
    let template = TemplateName {
        package,
        name: package,
    };
    Ok(Known {
        id: id_of(number),
        salt: salt_of(number),
        instance: Instance::of(alloc, template, ValueList::new(alloc))?,
    })
}

/// Changes a contract for the request at a place.
pub(crate) fn change_one(
    alloc: Global,
    store: &mut Store,
    change: Change,
    number: u64,
    place: u64,
) -> Result<(), AllocError> {
    let known = known_of(alloc, number)?;
    make_ready(alloc, store, &known)?;
    match change {
        Change::Create => store.create(known, place),
        Change::Consume => store.consume(known, place),
        Change::Hold => store.hold(known.id, place),
    }
    Ok(())
}

/// Makes room in the store for a change of the contract, which its calls ask for.
fn make_ready(alloc: Global, store: &mut Store, known: &Known) -> Result<(), AllocError>
    ensures spare { OnOk result (0 < store.new.spare) }
    ensures id { OnOk result (is_ready store.new.ready known.now.id ≡ true) }
{
    let mut knowns = KnownList::new(alloc);
    knowns.push(known.copied()?)?;
    store.reserve(&knowns, &HashList::new(alloc))
}

/// Puts what a store tells of a contract at the end.
fn put_contract(store: &Store, number: u64, out: &mut Answer) {
    let id = id_of(number);
    out.put(status_word(store.status(&id)));
    out.put(" held ");
    out.put(yes(store.locked(&id)));
    out.put(" found ");
    out.put(yes(store.find(&id).is_some()));
    out.put(" ");
    out.line(&[yes(store.find_salt(&salt_of(number)).is_some())]);
}

/// Puts the row at a place at the end: whether it is that of a contract, and who created and consumed it.
fn put_row(store: &Store, words: &mut Words<'_>, out: &mut Answer) {
    let at = words.number();
    let number = words.number();
    match store.row(at as usize) {
        Some(row) => put_found(row, number, out),
        None => out.line(&["none"]),
    }
}

fn put_found(row: &StoreRow, number: u64, out: &mut Answer) {
    out.put(yes(row.known.id == id_of(number)));
    out.put(" created ");
    put_place(row.created_at, out);
    out.put(" consumed ");
    put_place(row.consumed_at, out);
    out.put("\n");
}

fn put_place(place: Option<u64>, out: &mut Answer) {
    match place {
        Some(place) => out.number(place),
        None => out.put("never"),
    }
}

/// The word for a truth value.
pub(crate) fn yes(truth: bool) -> &'static str {
    if truth { "yes" } else { "no" }
}

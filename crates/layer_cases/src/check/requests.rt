//! Requests that a store and a tracker follow, each at a place of its own, and plain lists beside them.
use crate::answer::Answer;
use crate::check::case::Cases;
use crate::check::stores::{CONTRACTS, Change, change_one, yes};
use crate::check::trackers::{advance, outcome_of, track};
use crate::words::Words;
use canton_model::Outcome;
use std::alloc::{AllocError, Global};

/// What a request does to a contract, and what becomes of it.
#[derive(Clone, Copy)]
struct Asked {
    change: Change,
    number: u64,
    outcome: Outcome,
}

fn change_of(word: &str) -> Change {
    match word {
        "create" => Change::Create,
        _ => Change::Consume,
    }
}

/// Follows as many requests as the words say: what is done to a contract, the number of the first, what is added for each of the
/// next, how many they are, and what becomes of each request. Puts the line and what is told then at the end.
pub(crate) fn follow_all(
    alloc: Global,
    cases: &mut Cases,
    line: &str,
    mut words: Words<'_>,
    out: &mut Answer,
) {
    let change = change_of(words.next());
    let first = words.number();
    let step = words.number();
    let count = words.number();
    let outcome = outcome_of(words.next());
    for i in 0..count {
        let number = first.wrapping_add(i.wrapping_mul(step)) % CONTRACTS;
        let asked = Asked {
            change,
            number,
            outcome,
        };
        out.keep(follow(alloc, cases, asked));
    }
    out.put(line);
    put_told(cases, out);
}

/// Follows a request at the next place: it holds the contract, and then has its outcome, if it has one.
fn follow(alloc: Global, cases: &mut Cases, asked: Asked) -> Result<(), AllocError> {
    let place = cases.plain.read();
    change_one(alloc, &mut cases.store, Change::Hold, asked.number, place)?;
    track(&mut cases.tracker, place, 0)?;
    advance(&mut cases.tracker, 1);
    cases.plain.begin(asked.number)?;
    if asked.outcome == Outcome::Undecided {
        return Ok(());
    }
    settle(alloc, cases, asked, place)
}

/// Gives the request at a place its outcome, everywhere; an approved one changes the contract.
fn settle(alloc: Global, cases: &mut Cases, asked: Asked, place: u64) -> Result<(), AllocError> {
    cases.tracker.settle(place, asked.outcome);
    cases.store.release(place);
    cases.plain.settle(place);
    if asked.outcome != Outcome::Approved {
        return Ok(());
    }
    change_one(alloc, &mut cases.store, asked.change, asked.number, place)?;
    cases.plain.write(asked.change, asked.number, place)
}

/// Puts at the end how many rows there are, how many holds, the clean place, and whether the plain lists are alike.
fn put_told(cases: &Cases, out: &mut Answer) {
    out.put(" - rows ");
    out.number(cases.store.len() as u64);
    out.put(" holds ");
    out.number(cases.plain.undecided() as u64);
    out.put(" clean ");
    out.number(cases.tracker.clean());
    out.put(" as plain lists ");
    out.line(&[yes(cases.plain.is_like(&cases.store, &cases.tracker))]);
}

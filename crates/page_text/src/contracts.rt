//! The contracts of a participant.
use crate::html::Html;
use crate::stay::Stay;
use crate::story::Story;
use crate::teller::Teller;
use crate::words::put_contract;
use contract_store::{Status, StoreRow};
use ledger_terms::{Hash, ListOf};
use page_data::{ContractState, Knowledge};
use std::alloc::{AllocError, Global};

/// What is said of a contract at a place: its status, whether it is locked, and whether it is one of the participant's active contracts.
#[derive(Clone, Copy, PartialEq, Eq)]
struct ContractFacts {
    status: Status,
    is_locked: bool,
    is_own: bool,
}

/// What is said of a contract, and the places at which that is so.
#[derive(Clone, Copy)]
struct Held {
    stay: Stay,
    facts: ContractFacts,
}

/// What is known of a contract at a place. Contracts have one order at all places, so it stands at `index`. None: the participant isn't told of it
/// yet.
fn state_of(knowledge: &Knowledge, index: usize, id: &Hash) -> Option<ContractState> {
    match knowledge.contracts.get(index) {
        Some(state) if state.id == *id => Some(*state),
        _ => None,
    }
}

/// Whether a contract is one of the participant's active contracts at a place.
fn is_own(knowledge: &Knowledge, id: &Hash) -> bool {
    knowledge.active.as_slice().iter().any(|own| *own == *id)
}

/// What is said of a contract at a place, None where the participant isn't told of it yet. Where status and lock are those of `before`, which was
/// said at the place before, the rest is so too and isn't looked up again.
fn facts_of(
    knowledge: &Knowledge,
    index: usize,
    id: &Hash,
    before: Option<ContractFacts>,
) -> Option<ContractFacts> {
    let state = state_of(knowledge, index, id)?;
    let ContractState {
        status,
        is_locked,
        ..
    } = state;
    match before {
        Some(facts) if facts.status == status && facts.is_locked == is_locked => before,
        _ => Some(ContractFacts {
            status,
            is_locked,
            is_own: is_own(knowledge, id),
        }),
    }
}

/// What is said of a contract from place to place: one item for each stretch of places over which it stays the same.
fn facts_over_time(
    alloc: Global,
    teller: &Teller,
    index: usize,
    id: &Hash,
) -> Result<ListOf<Held>, AllocError> {
    let mut all = ListOf::new(alloc);
    let mut now: Option<ContractFacts> = None;
    let mut from = 0;
    let mut to = 0;
    for (place, knowledge) in teller.course.states.as_slice().iter().enumerate() {
        let next = facts_of(knowledge, index, id, now);
        if next != now {
            if let Some(facts) = now {
                let stay = Stay { from, to };
                all.push(Held { stay, facts })?;
            }
            now = next;
            from = place as u64;
        }
        to = place as u64;
    }
    if let Some(facts) = now {
        let stay = Stay { from, to };
        all.push(Held { stay, facts })?;
    }
    Ok(all)
}

fn put_place(html: &mut Html, place: Option<u64>) -> Result<(), AllocError> {
    if let Some(place) = place {
        html.markup(" by the request at place ")?;
        html.number(place)?;
    }
    Ok(())
}

fn put_facts(html: &mut Html, row: &StoreRow, facts: &ContractFacts) -> Result<(), AllocError> {
    match facts.status {
        Status::Unknown => html.markup("unknown"),
        Status::Active => {
            html.markup("\u{25cf} active, created")?;
            put_place(html, row.created_at)
        }
        Status::Consumed => {
            html.markup("\u{25cb} consumed")?;
            put_place(html, row.consumed_at)
        }
    }?;
    if facts.is_locked {
        html.markup("; <b>locked</b>: an undecided request creates or consumes it")?;
    }
    if facts.status == Status::Active && !facts.is_own {
        html.markup("; no stakeholder of it is hosted")?;
    }
    Ok(())
}

/// Puts a row of the table for each stretch of places over which the same is said of the contract.
fn put_rows(
    html: &mut Html,
    story: &Story<'_>,
    teller: &Teller,
    index: usize,
    row: &StoreRow,
) -> Result<(), AllocError> {
    for held in facts_over_time(story.alloc, teller, index, &row.known.id)?.as_slice() {
        html.begin_at("tr", held.stay, story.last())?;
        html.markup("<th scope=\"row\">")?;
        put_contract(story.alloc, html, &row.known.instance)?;
        html.markup("</th><td>")?;
        put_facts(html, row, &held.facts)?;
        html.markup("</td></tr>\n")?;
    }
    Ok(())
}

/// Puts the table of the contracts that the participant is told of, with what it knows of each at each place.
pub(crate) fn put_contracts(
    html: &mut Html,
    story: &Story<'_>,
    teller: &Teller,
) -> Result<(), AllocError> {
    html.markup("<h4>Contracts</h4>\n")?;
    html.markup(
        "<table><thead><tr><th scope=\"col\">Contract</th><th scope=\"col\">Status</th></tr></thead>\n<tbody>",
    )?;
    for (index, row) in teller.course.contracts.as_slice().iter().enumerate() {
        put_rows(html, story, teller, index, row)?;
    }
    html.markup("</tbody></table>\n")
}

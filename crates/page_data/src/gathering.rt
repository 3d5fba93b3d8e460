//! What a participant knows, gathered by its own calls.
ghost use Rattle.std.specs.Prelude.{◌≡◌, ◌++◌, ℕ, List, length, map, IfOk, OnOk};
ghost use Rattle.ledger_terms.specs.declared.active_row.ActiveRow.{ActiveRow as ActiveRowValue};
ghost use Rattle.canton_model.specs.Inbox.{is_locked_in_inbox, status_in_inbox};
ghost use Rattle.contract_store.specs.Rows.{status_in};
ghost use Rattle.contract_store.specs.Stored.{is_held};
ghost use Rattle.node_inbox.specs.InboxState.{params_of, reading_of};
ghost use Rattle.page_data.specs.Knowledge.{HasNoStart, active_ids, contract_state, contract_states, contract_states_at, knowledge_of};
ghost use Rattle.page_data.specs.Knowledge.{request_states_at, request_states_below, store_rows, store_rows_at};

use crate::contract_state::{ContractState, ContractStateList};
use crate::course::StoreRowList;
use crate::knowledge::Knowledge;
use crate::request_state::{RequestState, RequestStateList};
use contract_store::{Store, StoreRow};
use ledger_terms::{ActiveRowList, Exact, Hash, HashList};
use node_inbox::Inbox;
use std::alloc::{AllocError, Global};

// What it knows of contracts, where it has forgotten nothing.
fn store_of<'i>(inbox: &'i Inbox<'_>) -> &'i Store
    requires { HasNoStart inbox.now }
    ensures rows { result.now.rows ≡ store_rows inbox.now }
    ensures status { (c : List ℕ) → status_in result.now.rows c
        ≡ status_in_inbox (reading_of inbox.now) inbox.now.items (length inbox.now.items) c }
    ensures locked { (c : List ℕ) → is_held result.now.holds c
        ≡ is_locked_in_inbox (reading_of inbox.now) (params_of inbox.now) inbox.now.items (length inbox.now.items) c }
{
    inbox.store()
}

fn contract_state(inbox: &Inbox<'_>, id: Hash) -> ContractState
    requires { HasNoStart inbox.now }
    ensures { result ≡ contract_state inbox.now id }
{
    let store = store_of(inbox);
    ContractState {
        id,
        status: store.status(&id),
        is_locked: store.locked(&id),
    }
}

fn put_contract_state(
    inbox: &Inbox<'_>,
    at: usize,
    states: &mut ContractStateList,
) -> Result<(), AllocError>
    requires { HasNoStart inbox.now }
    ensures { OnOk result (states.new ≡ states.old ++ contract_states_at inbox.now at) }
{
    if let Some(row) = store_of(inbox).row(at) {
        states.push(contract_state(inbox, row.known.id))?;
    }
    Ok(())
}

fn contract_states(alloc: Global, inbox: &Inbox<'_>) -> Result<ContractStateList, AllocError>
    requires { HasNoStart inbox.now }
    ensures { IfOk result (λ states. states ≡ contract_states inbox.now) }
{
    let mut states = ContractStateList::new(alloc);
    'rows: for at in 0..store_of(inbox).len() {
        put_contract_state(inbox, at, &mut states)?;
    }
    Ok(states)
}

fn copy_row(row: &StoreRow) -> Result<StoreRow, AllocError>
    ensures { IfOk result (λ copy. copy ≡ row.now) }
{
    Ok(StoreRow {
        known: row.known.copied()?,
        created_at: row.created_at,
        consumed_at: row.consumed_at,
    })
}

fn put_row(inbox: &Inbox<'_>, at: usize, rows: &mut StoreRowList) -> Result<(), AllocError>
    requires { HasNoStart inbox.now }
    ensures { OnOk result (rows.new ≡ rows.old ++ store_rows_at inbox.now at) }
{
    if let Some(row) = store_of(inbox).row(at) {
        rows.push(copy_row(row)?)?;
    }
    Ok(())
}

/// The contracts of which approved requests told a participant that has forgotten nothing, in the order in which they came. Each has the place of the
/// request that created it and of the one that consumed it, and None for one of which the participant wasn't told.
pub fn store_rows(alloc: Global, inbox: &Inbox<'_>) -> Result<StoreRowList, AllocError>
    requires { HasNoStart inbox.now }
    ensures { IfOk result (λ rows. rows ≡ store_rows inbox.now) }
{
    let mut rows = StoreRowList::new(alloc);
    'rows: for at in 0..store_of(inbox).len() {
        put_row(inbox, at, &mut rows)?;
    }
    Ok(rows)
}

fn put_request_state(
    inbox: &Inbox<'_>,
    place: u64,
    states: &mut RequestStateList,
) -> Result<(), AllocError>
    ensures { OnOk result (states.new ≡ states.old ++ request_states_at inbox.now place) }
{
    if let Some(outcome) = inbox.outcome(place) {
        states.push(RequestState {
            place,
            outcome,
            owes: inbox.owes(place),
        })?;
    }
    Ok(())
}

fn request_states(alloc: Global, inbox: &Inbox<'_>) -> Result<RequestStateList, AllocError>
    ensures { IfOk result (λ states. states ≡ request_states_below inbox.now (length inbox.now.items)) }
{
    let mut states = RequestStateList::new(alloc);
    'places: for place in 0..inbox.cursor() {
        put_request_state(inbox, place, &mut states)?;
    }
    Ok(states)
}

fn ids_of(alloc: Global, rows: &ActiveRowList) -> Result<HashList, AllocError>
    ensures { IfOk result (λ ids. ids ≡ map (λ (row : ActiveRowValue). row.known.id) rows.now) }
{
    let mut ids = HashList::new(alloc);
    for row in rows.as_slice() {
        ids.push(row.known.id)?;
    }
    Ok(ids)
}

fn active_ids(alloc: Global, inbox: &Inbox<'_>) -> Result<HashList, AllocError>
    requires { HasNoStart inbox.now }
    ensures { IfOk result (λ ids. ids ≡ active_ids inbox.now) }
{
    let rows = inbox.active_at(alloc, inbox.cursor())?;
    ids_of(alloc, &rows)
}

/// What a participant that has forgotten nothing knows, by what it has read.
pub fn knowledge_of(alloc: Global, inbox: &Inbox<'_>) -> Result<Knowledge, AllocError>
    requires { HasNoStart inbox.now }
    ensures { IfOk result (λ knowledge. knowledge ≡ knowledge_of inbox.now) }
{
    Ok(Knowledge {
        clean: inbox.clean(),
        clean_time: inbox.clean_time(),
        active: active_ids(alloc, inbox)?,
        withheld: inbox.withheld()?,
        contracts: contract_states(alloc, inbox)?,
        requests: request_states(alloc, inbox)?,
    })
}

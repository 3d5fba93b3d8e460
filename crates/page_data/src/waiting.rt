//! For whom the mediator waits.
ghost use Rattle.std.specs.Prelude.{◌≡◌, ◌++◌, ◌∷◌, [], length, IfOk, OnOk};
ghost use Rattle.canton_model.specs.Mediation.{has_responded, is_response_of, missing_of};
ghost use Rattle.page_data.specs.Waiting.{each_waiting, is_answered, is_verdict_on, open_at, open_below, open_in};

use crate::open_request::{OpenRequest, OpenRequestList, OpenRequestLists};
use canton_model::{Entry, Message, Request};
use ledger_terms::{Params, ParticipantId, ParticipantIdList};
use std::alloc::{AllocError, Global};

fn is_response_of(p: ParticipantId, place: u64, message: &Message) -> bool
    ensures { result ≡ is_response_of p place message.now }
{
    match message {
        Message::Response(response) => response.from == p && response.request == place,
        Message::Request(_) => false,
        Message::Verdict(_) => false,
        Message::Tick => false,
    }
}

fn has_responded(log: &[Entry], place: u64, p: ParticipantId) -> bool
    ensures { result ≡ has_responded place log.now p }
{
    log.iter()
        .any(|entry| is_response_of(p, place, &entry.message))
}

fn put_if_missing(
    log: &[Entry],
    place: u64,
    p: ParticipantId,
    missing: &mut ParticipantIdList,
) -> Result<(), AllocError>
    ensures { OnOk result (missing.new ≡ missing.old ++ missing_of place (p ∷ []) log.now) }
{
    if !has_responded(log, place, p) {
        missing.push(p)?;
    }
    Ok(())
}

fn missing_of(
    alloc: Global,
    log: &[Entry],
    place: u64,
    confirming: &ParticipantIdList,
) -> Result<ParticipantIdList, AllocError>
    ensures { IfOk result (λ missing. missing ≡ missing_of place confirming.now log.now) }
{
    let mut missing = ParticipantIdList::new(alloc);
    for p in confirming.as_slice() {
        put_if_missing(log, place, *p, &mut missing)?;
    }
    Ok(missing)
}

fn is_verdict_on(place: u64, message: &Message) -> bool
    ensures { result ≡ is_verdict_on place message.now }
{
    match message {
        Message::Verdict(verdict) => verdict.request == place,
        Message::Request(_) => false,
        Message::Response(_) => false,
        Message::Tick => false,
    }
}

fn is_answered(log: &[Entry], place: u64) -> bool
    ensures { result ≡ is_answered place log.now }
{
    log.iter().any(|entry| is_verdict_on(place, &entry.message))
}

fn put_request(
    params: &Params,
    log: &[Entry],
    place: u64,
    time: u64,
    request: &Request,
    all: &mut OpenRequestList,
) -> Result<(), AllocError>
    ensures { OnOk result (all.new ≡ all.old ++ open_at params.now log.now place time request.now) }
{
    if is_answered(log, place) {
        return Ok(());
    }
    let alloc = *all.allocator();
    let missing = missing_of(alloc, log, place, &request.confirming)?;
    all.push(OpenRequest {
        place,
        deadline: time.saturating_add(params.response_timeout),
        missing,
    })
}

fn put_entry(
    params: &Params,
    log: &[Entry],
    place: u64,
    entry: &Entry,
    all: &mut OpenRequestList,
) -> Result<(), AllocError>
    ensures { OnOk result (all.new ≡ all.old ++ open_in params.now log.now place entry.now.time entry.now.message) }
{
    match &entry.message {
        Message::Request(request) => put_request(params, log, place, entry.time, request, all),
        Message::Response(_) => Ok(()),
        Message::Verdict(_) => Ok(()),
        Message::Tick => Ok(()),
    }
}

// The requests of a log without a verdict.
fn open_requests(
    alloc: Global,
    params: &Params,
    log: &[Entry],
) -> Result<OpenRequestList, AllocError>
    ensures { IfOk result (λ all. all ≡ open_below params.now log.now 0 log.now) }
{
    let mut all = OpenRequestList::new(alloc);
    'entries: for place in 0..log.len() {
        put_entry(params, log, place as u64, &log[place], &mut all)?;
    }
    Ok(all)
}

/// Before the first entry of a log and after each: the requests without a verdict, and for whom the mediator waits. So there is one list more than
/// there are entries.
pub fn waiting_over(
    alloc: Global,
    params: &Params,
    log: &[Entry],
) -> Result<OpenRequestLists, AllocError>
    ensures { IfOk result (λ lists. lists ≡ each_waiting params.now log.now (length log.now)) }
{
    let mut lists = OpenRequestLists::new(alloc);
    lists.push(OpenRequestList::new(alloc))?;
    'places: for at in 0..log.len() {
        lists.push(open_requests(alloc, params, &log[..at + 1])?)?;
    }
    Ok(lists)
}

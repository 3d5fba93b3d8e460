//! What a case does.
ghost use Rattle.std.specs.Prelude.{◌≤◌, ◌^◌, true, ◌≡◌, All, IfOk, IfSome};
ghost use Rattle.world_play.specs.Events.{CanHappen, advance_in, advance_of};
ghost use Rattle.world_play.specs.Submitting.{CanSubmit};

use crate::world::events::{event_of, place_of};
use crate::world::handed_in::HandedIn;
use confirm_reply::Setup;
use std::alloc::{AllocError, Global};
use world_play::{Event, EventList};

/// How far events may move the time in all, in microseconds.
const MOST_TIME: u64 = 10_000_000_000_000_000;

/// The events of a case, whether it settles after them, and the index of the participant whose job comes too late, where there is one.
#[derive(Drop)]
pub(crate) struct Plan {
    pub(crate) events: EventList,
    pub(crate) settles: bool,
    pub(crate) late: Option<usize>,
}

/// The name of the participant whose job comes too late, empty where there is none, and the words of the events.
#[derive(Clone, Copy)]
pub(crate) struct Asked<'a> {
    pub(crate) late: &'a str,
    pub(crate) words: &'a str,
}

/// The plan that words with commas between them say, each an event, the last perhaps `settle`. None: one of them says no event.
pub(crate) fn plan_of(
    alloc: Global,
    setup: &Setup,
    left: HandedIn,
    asked: Asked<'_>,
) -> Result<Option<Plan>, AllocError>
    requires { All (CanSubmit setup.now.topology setup.now.checked) left.submits.items }
    ensures { IfOk result (λ o. IfSome o (λ plan. All (CanHappen setup.now.topology setup.now.checked) plan.events)) }
{
    let (words, settles) = match asked.words.strip_suffix(",settle") {
        Some(front) => (front, true),
        None => (asked.words, false),
    };
    let late = place_of(&setup.topology, asked.late);
    match events_of(alloc, setup, left, words)? {
        Some(events) => Ok(Some(Plan {
            events,
            settles,
            late,
        })),
        None => Ok(None),
    }
}

/// The events that words with commas between them say. None: one of them says none.
#[tactic(auto, using(crate::proofs::Fronts::one_more, crate::proofs::Fronts::nothing))]
fn events_of(
    alloc: Global,
    setup: &Setup,
    left: HandedIn,
    words: &str,
) -> Result<Option<EventList>, AllocError>
    requires { All (CanSubmit setup.now.topology setup.now.checked) left.submits.items }
    ensures { IfOk result (λ o. IfSome o (λ events. All (CanHappen setup.now.topology setup.now.checked) events)) }
{
    let mut left = left;
    let mut events = EventList::new(alloc);
    'words: for word in words.split(',') {
        match event_of(setup, &mut left, word) {
            Some(event) => events.push(event)?,
            None => return Ok(None),
        }
    }
    Ok(Some(events))
}

/// How far an event moves the time, in microseconds.
fn advance_of(event: &Event) -> u64
    ensures { result ≡ advance_of event.now }
{
    match event {
        Event::Advance { by } => *by,
        _ => 0,
    }
}

/// Whether events move the time by at most 10^16 microseconds in all, which is as much as can be played.
pub(crate) fn is_within_time(events: &[Event]) -> bool
    ensures { result ≡ true → advance_in events.now ≤ 10 ^ 16 }
{
    let mut left = MOST_TIME;
    'events: for event in events {
        let by = advance_of(event);
        if by > left {
            return false;
        }
        left -= by;
    }
    true
}

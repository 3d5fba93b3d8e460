//! Calls of a tracker.
use crate::answer::Answer;
use crate::words::Words;
use canton_model::Outcome;
use request_track::Tracker;
use std::alloc::AllocError;

/// Calls a tracker, and puts the line and what it tells then at the end.
pub(crate) fn call_tracker(
    tracker: &mut Tracker,
    line: &str,
    mut words: Words<'_>,
    out: &mut Answer,
) {
    let call = words.next();
    let number = words.number();
    let mut place = 0;
    match call {
        "begin" => out.keep(track(tracker, number, words.number())),
        "advance" => advance(tracker, number),
        "expire" => tracker.expire(number),
        "settle" => {
            tracker.settle(number, outcome_of(words.next()));
            place = number;
        }
        _ => place = number,
    }
    out.put(line);
    put_tracker(tracker, place, out);
}

/// Tracks one more request with this decision time, where none is tracked at its place.
pub(crate) fn track(tracker: &mut Tracker, place: u64, decision: u64) -> Result<(), AllocError> {
    if tracker.outcome(place).is_none() {
        return tracker.begin(place, decision);
    }
    Ok(())
}

/// Reads so many entries more.
pub(crate) fn advance(tracker: &mut Tracker, count: u64) {
    for _ in 0..count {
        if tracker.cursor() < u64::MAX {
            tracker.advance();
        }
    }
}

/// The outcome for a word.
pub(crate) fn outcome_of(word: &str) -> Outcome {
    match word {
        "approved" => Outcome::Approved,
        "rejected" => Outcome::Rejected,
        "timeout" => Outcome::TimedOut,
        "expired" => Outcome::Expired,
        _ => Outcome::Undecided,
    }
}

fn outcome_word(outcome: Option<Outcome>) -> &'static str {
    match outcome {
        None => "none",
        Some(Outcome::Undecided) => "undecided",
        Some(Outcome::Approved) => "approved",
        Some(Outcome::Rejected) => "rejected",
        Some(Outcome::TimedOut) => "timeout",
        Some(Outcome::Expired) => "expired",
    }
}

/// Puts how far a tracker has read at the end, the clean place, and the outcome of the request at a place.
fn put_tracker(tracker: &Tracker, place: u64, out: &mut Answer) {
    out.put(" - cursor ");
    out.number(tracker.cursor());
    out.put(" clean ");
    out.number(tracker.clean());
    out.put(" outcome ");
    out.line(&[outcome_word(tracker.outcome(place))]);
}

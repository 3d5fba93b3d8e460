//! The requests that are undecided in the whole log.
ghost use Rattle.std.specs.Prelude.{◌≡◌, ◌+◌, ◌<◌, ◌≤◌, ◌^◌, ◌&&◌, ◌++◌, ◌∷◌, [], ℕ, true, Some, not, filter, is_some, length, nat_eq, nat_lt, OnOk};
ghost use Rattle.std.specs.VecDeque.{deque_len, deque_capacity};
ghost use Rattle.canton_model.specs.Log.{decision_time_of, request_of};
ghost use Rattle.log_row.specs.LogPrefix.{LogPrefix};
ghost use Rattle.world_model.specs.Messages.{Message};
ghost use Rattle.world_model.specs.Sequencing.{is_verdict_on};
ghost use Rattle.seq_log.specs.Keys.{key_of};
ghost use Rattle.seq_log.specs.OpenRequests.{RisesBetween, after_front, begins_with, place_if};
ghost use Rattle.seq_log.specs.Slips.{Holds};

use crate::key::Key;
use crate::late::is_past;
use ledger_terms::Params;
use log_row::Slip;
use std::alloc::AllocError;
use std::collections::VecDeque;

/// The places of the requests that are undecided in the whole log. They rise, and so do the requests' decision times.
#[derive(Drop)]
pub struct OpenRequests {
    pub places: VecDeque<u64>,
}

impl OpenRequests {
    // Whether the first request's decision time lies before this time. False where there is no request.
    fn begins_past(&self, slips: &Vec<Slip<'_>>, params: &Params, time: u64) -> bool
        ensures some { result ≡ true → 0 < deque_len self.now.places }
        ensures past { (t : LogPrefix) → Holds t slips.now.items
            → result ≡ begins_with (λ k. nat_lt (decision_time_of params.now t.list k) time) self.now.places.items }
    {
        match self.places.front() {
            Some(place) => is_past(slips, params, *place, time),
            None => false,
        }
    }

    /// Drops the requests whose decision time lies before `time`. They are at the front, since decision times rise with the places. `slips` are those
    /// of the log's entries, and have the requests' times.
    pub fn expire(&mut self, slips: &Vec<Slip<'_>>, params: &Params, time: u64)
        ensures places { (t : LogPrefix) → Holds t slips.now.items
            → self.new.places.items ≡ after_front (λ k. nat_lt (decision_time_of params.now t.list k) time) self.old.places.items }
        ensures len { deque_len self.new.places ≤ deque_len self.old.places }
        ensures capacity { deque_capacity self.new.places ≡ deque_capacity self.old.places }
    {
        'front: while self.begins_past(slips, params, time) {
            let _ = self.places.pop_front();
        }
    }

    // The request is decided by a verdict.
    fn decide(&mut self, request: u64)
        ensures places { (low high : ℕ) → RisesBetween low self.old.places.items high
            → self.new.places.items ≡ filter (λ k. not (nat_eq request k)) self.old.places.items }
    {
        let at = self.places.partition_point(|place| *place < request);
        if at < self.places.len() && self.places[at] == request {
            let _ = self.places.remove(at);
        }
    }

    /// Adds the place of a request at the end, unless the request is decided.
    fn add_unless(&mut self, is_decided: bool, place: u64)
        requires room { deque_len self.old.places < deque_capacity self.old.places }
        ensures { self.new.places.items ≡ self.old.places.items ++ place_if (not is_decided) place }
    {
        if !is_decided {
            self.places.push_back_reserved(place);
        }
    }

    /// Makes room for one more place, so that `follow` takes no memory.
    pub fn reserve(&mut self) -> Result<(), AllocError>
        ensures places { self.new.places.items ≡ self.old.places.items }
        ensures room { OnOk result (deque_len self.new.places < deque_capacity self.new.places) }
    {
        self.places.reserve(1)
    }

    fn follow_key(&mut self, key: &Key, place: u64, is_decided: bool)
        requires room { deque_len self.old.places < deque_capacity self.old.places }
        ensures { (message : Message) (low high : ℕ) → Some key.now ≡ key_of message → RisesBetween low self.old.places.items high
            → self.new.places.items ≡ filter (λ k. not (is_verdict_on k message)) self.old.places.items
            ++ place_if (is_some (request_of message) && not is_decided) place }
    {
        match key {
            Key::Request(_, _) => self.add_unless(is_decided, place),
            Key::Verdict(request) => self.decide(*request),
            Key::Response(_, _) => {}
        }
    }

    /// Follows the entry at `place`, whose message has this key, None of a Tick: a verdict takes its request out, and a request comes in unless a
    /// verdict on it stands before it, as `is_decided` says. A response and a Tick change nothing. Room was made by `reserve`, so it takes no memory.
    pub fn follow(&mut self, key: &Option<Key>, place: u64, is_decided: bool)
        requires room { deque_len self.old.places < deque_capacity self.old.places }
        ensures { (message : Message) (low high : ℕ) → key.now ≡ key_of message → RisesBetween low self.old.places.items high
            → self.new.places.items ≡ filter (λ k. not (is_verdict_on k message)) self.old.places.items
            ++ place_if (is_some (request_of message) && not is_decided) place }
    {
        if let Some(key) = key {
            self.follow_key(key, place, is_decided);
        }
    }
}

//! What was read of a log.
ghost use Rattle.std.specs.Prelude.{◌≡◌, ◌++◌, ◌∷◌, ◌<◌, [], false, Decides, option_copied, nat_lt, slice_get, OnOk, OnErr};
ghost use Rattle.canton_model.specs.Log.{decision_time_of, request_at, time_of};
ghost use Rattle.audit_model.specs.Cases.{AnswersNothing, IsAsked, IsMistimed, IsTooLate, is_repeated};

use crate::follows::{asks, follows, request_in};
use canton_model::{Entry, EntryList, Message, Request, Response};
use indexmap::IndexMap;
use ledger_terms::Params;
use seq_log::{Key, key_of, place_of, put_place};
use std::alloc::{AllocError, Global};
use std::marker::Model;

/// What was read of a log, and where its messages stand.
#[derive(Drop)]
pub struct ReadLog {
    entries: EntryList,
    places: IndexMap<Key, u64>,
    // The time of the last entry, and 0 where there is none.
    last: u64,
}

impl Model for ReadLog {
    ghost use Rattle.std.specs.Prelude.{◌≡◌};
    ghost use Rattle.log_judge.specs.ReadEntries.{ReadEntries};

    ghost Value = { ReadEntries };

    ghost use Rattle.indexmap.specs.IndexMap.{get};
    ghost use Rattle.canton_model.specs.Log.{time_at_end};
    ghost use Rattle.seq_log.specs.Keys.{key_eq};
    ghost use Rattle.seq_log.specs.Faults.{Leads};

    ghost view = { λ l. record { list = l.entries } };

    ghost invariant = { λ l. Leads l.entries (λ k. get key_eq l.places k) × (l.last ≡ time_at_end l.entries) };
}

impl ReadLog {
    /// A log of which nothing was read.
    pub fn new(alloc: Global) -> ReadLog
        ensures { result ≡ record { list = [] } }
    {
        ReadLog {
            entries: EntryList::new(alloc),
            places: IndexMap::new(alloc),
            last: 0,
        }
    }

    /// Whether an entry's time doesn't follow that of the last one read, or 0 where none was read.
    pub fn is_mistimed(&self, entry: &Entry) -> bool
        ensures { Decides result (IsMistimed self.now.list entry.now) }
    {
        !follows(&entry.message, self.last, entry.time)
    }

    /// Whether a message repeats one that was read: a request of the same sender and command, a response of the same participant to the same request,
    /// or a verdict on the same request. A Tick repeats none.
    pub fn is_repeated(&self, message: &Message) -> bool
        ensures { result ≡ is_repeated self.now.list message.now }
    {
        place_of(&self.places, message).is_some()
    }

    /// The request at a place, and none where no request stands there.
    pub fn request(&self, place: u64) -> Option<&Request>
        ensures { option_copied result ≡ request_at self.now.list place }
    {
        match self.entries.get(place as usize) {
            Some(entry) => request_in(entry),
            None => None,
        }
    }

    // Whether a request stands there that asks the response's sender.
    fn is_asked(&self, response: &Response) -> bool
        ensures { Decides result (IsAsked self.now.list response.now) }
    {
        match self.request(response.request) {
            Some(request) => asks(request, response.from),
            None => false,
        }
    }

    /// Whether a message answers or decides a place without a request, or answers a request that doesn't ask its sender. Of a request and a Tick it is false.
    pub fn answers_nothing(&self, message: &Message) -> bool
        ensures { Decides result (AnswersNothing self.now.list message.now) }
    {
        match message {
            Message::Response(response) => !self.is_asked(response),
            Message::Verdict(verdict) => self.request(verdict.request).is_none(),
            Message::Request(_) => false,
            Message::Tick => false,
        }
    }

    fn time_at(&self, place: u64) -> u64
        ensures { result ≡ time_of (slice_get self.now.list place) }
    {
        match self.entries.get(place as usize) {
            Some(entry) => entry.time,
            None => 0,
        }
    }

    // Whether the decision time of the request at a place lies before this time.
    fn is_past(&self, params: &Params, place: u64, time: u64) -> bool
        ensures { result ≡ nat_lt (decision_time_of params.now self.now.list place) time }
    {
        let decision = self
            .time_at(place)
            .saturating_add(params.response_timeout)
            .saturating_add(params.reaction_timeout);
        decision < time
    }

    /// Whether an entry is a response or a verdict with a time after the decision time of its request, where a place without an entry counts as one of
    /// the time 0. Of a request and a Tick it is false.
    pub fn is_too_late(&self, params: &Params, entry: &Entry) -> bool
        ensures { Decides result (IsTooLate params.now self.now.list entry.now.message entry.now.time) }
    {
        match &entry.message {
            Message::Response(response) => self.is_past(params, response.request, entry.time),
            Message::Verdict(verdict) => self.is_past(params, verdict.request, entry.time),
            Message::Request(_) => false,
            Message::Tick => false,
        }
    }

    /// Reads one more entry, which repeats none. After want of memory all is as before.
    pub fn push(&mut self, entry: Entry) -> Result<(), AllocError>
        requires { is_repeated self.old.list entry.message ≡ false }
        ensures ok { OnOk result (self.new.list ≡ self.old.list ++ entry ∷ []) }
        ensures err { OnErr result (self.new ≡ self.old) }
    {
        let key = key_of(&entry.message);
        let time = entry.time;
        let place = self.entries.len() as u64;
        self.places.reserve(1)?;
        self.entries.push(entry)?;
        put_place(&mut self.places, key, place);
        self.last = time;
        Ok(())
    }
}

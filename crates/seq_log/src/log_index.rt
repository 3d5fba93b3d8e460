//! What is kept beside the log.
ghost use Rattle.std.specs.Prelude.{◌≡◌, ◌+◌, ◌<◌, ◌≤◌, ◌^◌, ◌++◌, ◌∷◌, [], ℕ, List, None, length, IfOk, OnErr, OnOk};
ghost use Rattle.std.specs.List.{list_any};
ghost use Rattle.std.specs.VecDeque.{deque_len, deque_capacity};
ghost use Rattle.indexmap.specs.IndexMap.{spare};
ghost use Rattle.canton_model.specs.Log.{FollowsTime};
ghost use Rattle.canton_model.specs.Mediation.{has_responded};
ghost use Rattle.log_row.specs.LogPrefix.{LogPrefix};
ghost use Rattle.world_model.specs.Messages.{Entry, RequestMessage};
ghost use Rattle.world_model.specs.Sequencing as s;
ghost use Rattle.seq_log.specs.Keys.{key_of};
ghost use Rattle.framed_form.specs.Framed.{is_framed};
ghost use Rattle.seq_log.specs.Admitted.{IsAdmitted, refusal_of};
ghost use Rattle.seq_log.specs.Faults.{next_time, fault_in, other_fault, request_fault};
ghost use Rattle.seq_log.specs.Indexed.{IsIndexOf};
ghost use Rattle.seq_log.specs.Sequenced.{LeftOpen, fault_if};
ghost use Rattle.seq_log.specs.Slips.{Holds};

use crate::admission::{Admission, taken_unless};
use crate::fault::AppendFault;
use crate::key::Key;
use crate::late::{if_full, if_late};
use crate::open_requests::OpenRequests;
use crate::place::{place_of, put_place, stands};
use canton_model::{Message, Request};
use framed_form::framed_outline;
use indexmap::IndexMap;
use ledger_terms::{Params, ParticipantId, Topology};
use log_row::Slip;
use std::alloc::{AllocError, Global};

/// The times and the capacity of a log, where its messages stand, its open requests, how many places its requests need in all, and the time of
/// its last entry.
#[derive(Drop)]
pub struct LogIndex {
    pub params: Params,
    pub capacity: u64,
    pub places: IndexMap<Key, u64>,
    pub open_requests: OpenRequests,
    pub reserved: u64,
    pub last: u64,
}

/// The time of the next entry, where the last one's time is `last`: a microsecond later, and for a Tick `now` where that is later still.
pub fn next_time(now: u64, message: &Message, last: u64) -> u64
    requires { last + 1 < 2 ^ 64 }
    ensures { result ≡ next_time now message.now last }
{
    match message {
        Message::Tick => now.max(last + 1),
        _ => last + 1,
    }
}

/// How many places of the log a message needs: a request two, for itself and its verdict, and one for each confirming participant; any other message
/// none.
pub fn need_of(message: &Message) -> u64
    ensures { result ≡ s.need_of message.now }
{
    match message {
        Message::Request(request) => need_of_request(request),
        _ => 0,
    }
}

// How many places a request needs: its own, one for its verdict, and one for the response of each confirming participant.
fn need_of_request(request: &Request) -> u64
    ensures { result ≡ 2 + length request.now.confirming }
{
    request.confirming.as_slice().len() as u64 + 2
}

impl LogIndex {
    // Whether the request is appended, where it doesn't stand in the log.
    fn admit_request(
        &self,
        alloc: Global,
        topology: &Topology,
        request: &Request,
    ) -> Result<Admission, AllocError>
        requires hosts { length topology.now.hosts ≤ 256 }
        requires reserved { self.now.reserved ≤ self.now.capacity }
        ensures ok { IfOk result (λ admission. request_fault (is_framed topology.now request.now) self.now.capacity self.now.reserved
            (2 + length request.now.confirming) ≡ fault_if (refusal_of admission)) }
        ensures outlined { IfOk result (λ admission. IsAdmitted (RequestMessage request.now) admission) }
    {
        let full = if_full(self.capacity, self.reserved, need_of_request(request));
        let Some(outline) = framed_outline(alloc, topology, request)? else {
            return Ok(Admission::Refused(AppendFault::Unframed));
        };
        match full {
            Some(fault) => Ok(Admission::Refused(fault)),
            None => Ok(Admission::Taken(Some(outline))),
        }
    }

    // Whether the message is appended, where it doesn't stand in the log.
    fn admit_other(
        &self,
        alloc: Global,
        topology: &Topology,
        slips: &Vec<Slip<'_>>,
        message: &Message,
    ) -> Result<Admission, AllocError>
        requires hosts { length topology.now.hosts ≤ 256 }
        requires reserved { self.now.reserved ≤ self.now.capacity }
        requires last { self.now.last + 1 < 2 ^ 64 }
        ensures ok { IfOk result (λ admission. (t : LogPrefix) → Holds t slips.now.items → IsIndexOf self.now t.list
            → other_fault (is_framed topology.now) self.now.capacity self.now.params t.list message.now ≡ fault_if (refusal_of admission)) }
        ensures outlined { IfOk result (λ admission. IsAdmitted message.now admission) }
        ensures err { OnErr result ((t : LogPrefix) → LeftOpen (other_fault (is_framed topology.now) self.now.capacity self.now.params t.list message.now)) }
    {
        match message {
            Message::Request(request) => self.admit_request(alloc, topology, request),
            Message::Response(response) => {
                let late = if_late(slips, &self.params, self.last, response.request);
                Ok(taken_unless(late))
            }
            Message::Verdict(verdict) => {
                let late = if_late(slips, &self.params, self.last, verdict.request);
                Ok(taken_unless(late))
            }
            Message::Tick => Ok(Admission::Taken(None)),
        }
    }

    /// Whether the message is appended, or the first cause why it isn't. `slips` are those of all entries of the log, and the topology tells which
    /// requests are framed. An error says that there is no memory.
    pub fn admit(
        &self,
        alloc: Global,
        topology: &Topology,
        slips: &Vec<Slip<'_>>,
        message: &Message,
    ) -> Result<Admission, AllocError>
        requires hosts { length topology.now.hosts ≤ 256 }
        requires reserved { self.now.reserved ≤ self.now.capacity }
        requires last { self.now.last + 1 < 2 ^ 64 }
        ensures ok { IfOk result (λ admission. (t : LogPrefix) → Holds t slips.now.items → IsIndexOf self.now t.list
            → fault_in (is_framed topology.now) self.now.capacity self.now.params t.list message.now ≡ fault_if (refusal_of admission)) }
        ensures outlined { IfOk result (λ admission. IsAdmitted message.now admission) }
        ensures err { OnErr result ((t : LogPrefix) → IsIndexOf self.now t.list
            → LeftOpen (fault_in (is_framed topology.now) self.now.capacity self.now.params t.list message.now)) }
    {
        match place_of(&self.places, message) {
            Some(place) => Ok(Admission::Refused(AppendFault::Already { place })),
            None => self.admit_other(alloc, topology, slips, message),
        }
    }

    /// Whether a response of the participant to the request at a place stands in the log.
    pub fn has_response(&self, request: u64, from: ParticipantId) -> bool
        ensures { (list : List Entry) → IsIndexOf self.now list → result ≡ has_responded request list from }
    {
        stands(&self.places, &Key::Response(from, request))
    }

    // Whether a verdict on the request at a place stands in the log.
    fn has_verdict(&self, request: u64) -> bool
        ensures { (list : List Entry) → IsIndexOf self.now list → result ≡ list_any (λ (e : Entry). s.is_verdict_on request e.message) list }
    {
        stands(&self.places, &Key::Verdict(request))
    }

    /// Makes room to note one more entry: for one more place, and for one more open request. `note` then takes no memory.
    pub fn reserve(&mut self) -> Result<(), AllocError>
        ensures kept { (list : List Entry) → IsIndexOf self.old list → IsIndexOf self.new list }
        ensures made { (self.new.params ≡ self.old.params) × (self.new.capacity ≡ self.old.capacity) }
        ensures numbers { (self.new.reserved ≡ self.old.reserved) × (self.new.last ≡ self.old.last) }
        ensures room { OnOk result (0 < spare self.new.places) }
        ensures open_room { OnOk result (deque_len self.new.open_requests.places < deque_capacity self.new.open_requests.places) }
    {
        self.places.reserve(1)?;
        self.open_requests.reserve()
    }

    /// Notes the entry that was put at `place`: its message's key, where it has one, how many places the message needs, and its time. `slips` has its
    /// slip already, and room was made by `reserve`.
    pub fn note(
        &mut self,
        slips: &Vec<Slip<'_>>,
        key: Option<Key>,
        place: u64,
        need: u64,
        time: u64,
    )
        requires room { 0 < spare self.old.places }
        requires open_room { deque_len self.old.open_requests.places < deque_capacity self.old.open_requests.places }
        requires within { self.old.reserved + need ≤ self.old.capacity }
        ensures kept { (t : LogPrefix) (list : List Entry) (e : Entry) → Holds t slips.now.items → t.list ≡ list ++ e ∷ [] → IsIndexOf self.old list
            → length list ≡ place → key ≡ key_of e.message → need ≡ s.need_of e.message → time ≡ e.time → FollowsTime e.message self.old.last e.time
            → s.first_from (s.is_same e.message) 0 list ≡ None → IsIndexOf self.new (list ++ e ∷ []) }
        ensures made { (self.new.params ≡ self.old.params) × (self.new.capacity ≡ self.old.capacity) }
        ensures numbers { (self.new.reserved ≡ self.old.reserved + need) × (self.new.last ≡ time) }
    {
        let is_decided = self.has_verdict(place);
        self.open_requests.expire(slips, &self.params, time);
        self.open_requests.follow(&key, place, is_decided);
        put_place(&mut self.places, key, place);
        self.reserved += need;
        self.last = time;
    }
}

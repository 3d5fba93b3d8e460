//! What a participant keeps of claims and responses.
ghost use Rattle.std.specs.Prelude.{◌≡◌, ◌<◌, ◌≤◌, false, true, ℕ, Bool, All, find, take, length, option_copied, OnOk, OnErr, slice_get, ◌+◌, ◌++◌, ◌∷◌, []};
ghost use Rattle.std.specs.Prelude.{vec_len, vec_capacity, filter, if◌then◌else◌, IfOk};
ghost use Rattle.std.specs.List.{AllWithin, list_any};
ghost use Rattle.std.specs.List.Sorted.{IsNonDecreasing};
ghost use Rattle.indexmap.specs.IndexSet.{spare};
ghost use Rattle.world_model.specs.Places.{has_place, without_place};
ghost use Rattle.node_core.specs.Duties.{nothing_kept, with_passed, with_room, with_owed, with_claim, with_response, without_response, without_claim};
ghost use Rattle.node_core.specs.Duties.{is_done, is_free, IsPassed, first_waiting, with_done, with_waiting};

use crate::decisions::Decisions;
use crate::outbox::Outbox;
use canton_model::Response;
use indexmap::IndexSet;
use ledger_terms::{RoomyList, U64List};
use node_state::ResponseList;
use std::alloc::{AllocError, Global};
use std::marker::Model;

/// The duties of a participant: the places of the requests to which it owes verdicts, what it has claimed of them, and the responses that wait.
#[derive(Drop)]
pub struct Duties {
    // Rising places.
    owed: RoomyList<u64>,
    // The owed places below this index are decided or claimed.
    passed: usize,
    claimed: IndexSet<u64>,
    unfinished: Vec<u64>,
    // It has room for a response to each unfinished place.
    outbox: Outbox,
}

impl Model for Duties {
    ghost use Rattle.std.specs.Prelude.{◌≤◌, ◌+◌, length};
    ghost use Rattle.std.specs.List.Sorted.{IsNonDecreasing};
    ghost use Rattle.node_core.specs.Duties.{Kept};

    ghost Value = { Kept };

    ghost view = { λ d. record {
      owed = d.owed.items;
      room = d.owed.spare;
      passed = d.passed;
      claimed = d.claimed.keys;
      unfinished = d.unfinished.items;
      outbox = d.outbox.responses;
    } };

    ghost invariant = { λ d. IsNonDecreasing d.owed.items
        × (length d.outbox.responses + length d.unfinished.items ≤ d.outbox.capacity) };
}

// How many of the owed places are passed, where `passed` were before.
fn passed_now<D: Decisions>(
    decisions: &D,
    owed: &[u64],
    claimed: &IndexSet<u64>,
    passed: usize,
) -> usize
    requires within { passed ≤ length owed.now }
    requires passed { list_any (is_free (D.decided decisions.now) claimed.now.keys) (take passed owed.now) ≡ false }
    ensures within { result ≤ length owed.now }
    ensures passed { list_any (is_free (D.decided decisions.now) claimed.now.keys) (take result owed.now) ≡ false }
    ensures first { slice_get owed.now result ≡ find (is_free (D.decided decisions.now) claimed.now.keys) owed.now }
{
    for at in passed..owed.len() {
        let place = owed[at];
        if !claimed.contains(&place) && !decisions.has_decided(place) {
            return at;
        }
    }
    owed.len()
}

fn places_below(owed: &[u64], place: u64) -> usize
    requires { IsNonDecreasing owed.now }
    ensures within { result ≤ length owed.now }
    ensures below { AllWithin (λ k. k < place) owed.now 0 result }
{
    owed.partition_point(|k| *k < place)
}

impl Duties {
    /// The duties of a participant that has read nothing.
    pub fn new(alloc: Global) -> Duties
        ensures { result ≡ with_room nothing_kept result.room }
    {
        Duties {
            owed: RoomyList::new(alloc),
            passed: 0,
            claimed: IndexSet::new(alloc),
            unfinished: Vec::new(alloc),
            outbox: Outbox::new(alloc),
        }
    }

    /// Makes room for one more owed place. An error leaves all as it was.
    pub fn reserve(&mut self) -> Result<(), AllocError>
        ensures same { self.new ≡ with_room self.old self.new.room }
        ensures room { OnOk result (0 < self.new.room) }
    {
        self.owed.reserve(1)
    }

    /// Notes that the participant owes verdicts to the request at a place, which is behind the owed ones. Takes no memory.
    pub fn owe(&mut self, place: u64)
        requires room { 0 < self.old.room }
        requires last { All (λ k. k ≤ place) self.old.owed }
        ensures { self.new ≡ with_room (with_owed self.old place) self.new.room }
    {
        self.owed.push_within(place);
    }

    /// The first owed place that is neither decided, as `decisions` tells, nor claimed, and none where there is no such place. How far it looked is
    /// kept for the next time.
    pub fn next_place<D: Decisions>(&mut self, decisions: &D) -> Option<u64>
        requires { IsPassed (D.decided decisions.now) self.old }
        ensures place { result ≡ find (is_free (D.decided decisions.now) self.old.claimed) self.old.owed }
        ensures passed { IsPassed (D.decided decisions.now) self.new }
        ensures same { self.new ≡ with_passed self.old self.new.passed }
    {
        self.passed = passed_now(decisions, self.owed.as_slice(), &self.claimed, self.passed);
        self.owed.get(self.passed).copied()
    }

    /// Claims a place, with room for its response. An error leaves all as it was.
    pub fn claim(&mut self, place: u64) -> Result<(), AllocError>
        requires { has_place self.old.claimed place ≡ false }
        ensures ok { OnOk result (self.new ≡ with_claim self.old place) }
        ensures err { OnErr result (self.new ≡ self.old) }
    {
        make_room(&mut self.claimed, &mut self.unfinished, &mut self.outbox)?;
        put_claim(&mut self.claimed, place);
        self.unfinished.push_reserved(place);
        Ok(())
    }

    /// Finishes the unfinished job of the response's request: the response waits from now on. Takes no memory.
    pub fn finish(&mut self, response: Response)
        requires { has_place self.old.unfinished response.request ≡ true }
        ensures { self.new ≡ with_response self.old response }
    {
        let place = response.request;
        drop_place(&mut self.unfinished, place);
        self.outbox.push_within(response);
    }

    /// Takes up the claim of a place whose job was finished before the participant began again. An error leaves all as it was.
    pub fn claim_done(&mut self, place: u64) -> Result<(), AllocError>
        requires { has_place self.old.claimed place ≡ false }
        ensures ok { OnOk result (self.new ≡ with_done self.old place) }
        ensures err { OnErr result (self.new ≡ self.old) }
    {
        self.claimed.reserve(1)?;
        put_claim(&mut self.claimed, place);
        Ok(())
    }

    /// Takes up a response that waited before the participant began again. An error leaves all as it was.
    pub fn wait(&mut self, response: Response) -> Result<(), AllocError>
        ensures ok { OnOk result (self.new ≡ with_waiting self.old response) }
        ensures err { OnErr result (self.new ≡ self.old) }
    {
        self.outbox.reserve(self.unfinished.len() + 1)?;
        self.outbox.push_within(response);
        Ok(())
    }

    /// The owed places at or after `from` whose job is done, ascending.
    pub fn done(&self, alloc: Global, from: u64) -> Result<U64List, AllocError>
        ensures { IfOk result (λ done. done ≡ filter (is_done from self.now) self.now.owed) }
    {
        let mut done = U64List::new(alloc);
        for place in self.owed.as_slice() {
            push_if(&mut done, *place, self.is_done(from, *place))?;
        }
        Ok(done)
    }

    // Whether a place, at or after another, was claimed and isn't unfinished.
    fn is_done(&self, from: u64, place: u64) -> bool
        ensures { result ≡ is_done from self.now place }
    {
        from <= place && self.claimed.contains(&place) && !self.is_unfinished(place)
    }

    /// Copies of the responses that wait, in the order in which they came.
    pub fn responses(&self, alloc: Global) -> Result<ResponseList, AllocError>
        ensures { IfOk result (λ responses. responses ≡ self.now.outbox) }
    {
        self.outbox.copied(alloc)
    }

    /// Whether a job of the request at a place was claimed and neither finished nor put back.
    pub fn is_unfinished(&self, place: u64) -> bool
        ensures { result ≡ has_place self.now.unfinished place }
    {
        self.unfinished.iter().any(|k| place == *k)
    }

    /// Takes back the claim of a place and its response, so that the place can be claimed again. Takes no memory.
    pub fn put_back(&mut self, place: u64)
        ensures state { self.new ≡ without_claim self.old place self.new.passed }
        ensures passed { (decided : ℕ → Bool) → IsPassed decided self.old → IsPassed decided self.new }
    {
        self.passed = self.passed.min(places_below(self.owed.as_slice(), place));
        drop_claim(&mut self.claimed, place);
        drop_place(&mut self.unfinished, place);
        self.outbox.remove(place);
    }

    /// The response to the least place among those that wait and whose request isn't decided, and none where there is none.
    pub fn first_waiting<D: Decisions>(&self, decisions: &D) -> Option<&Response>
        ensures { option_copied result ≡ first_waiting (D.decided decisions.now) self.now.outbox }
    {
        self.outbox.first_waiting(decisions)
    }

    /// Takes the response to a request out of those that wait, since it is sent.
    pub fn sent(&mut self, request: u64)
        ensures { self.new ≡ without_response self.old request }
    {
        self.outbox.remove(request);
    }
}

fn push_if(places: &mut U64List, place: u64, is: bool) -> Result<(), AllocError>
    ensures { OnOk result (places.new ≡ places.old ++ (if is then place ∷ [] else [])) }
{
    if is {
        places.push(place)?;
    }
    Ok(())
}

// Room for one more claim and for the responses to all unfinished places.
fn make_room(
    claimed: &mut IndexSet<u64>,
    unfinished: &mut Vec<u64>,
    outbox: &mut Outbox,
) -> Result<(), AllocError>
    ensures claimed { claimed.new.keys ≡ claimed.old.keys }
    ensures unfinished { unfinished.new.items ≡ unfinished.old.items }
    ensures outbox { outbox.new.responses ≡ outbox.old.responses }
    ensures kept { outbox.old.capacity ≤ outbox.new.capacity }
    ensures room { OnOk result ((0 < spare claimed.new) × (vec_len unfinished.new < vec_capacity unfinished.new)
        × (length outbox.new.responses + length unfinished.new.items < outbox.new.capacity)) }
{
    claimed.reserve(1)?;
    unfinished.reserve(1)?;
    outbox.reserve(unfinished.len() + 1)
}

// One more claim, in the room that is there.
fn put_claim(claimed: &mut IndexSet<u64>, place: u64)
    requires room { 0 < spare claimed.old }
    requires new { has_place claimed.old.keys place ≡ false }
    ensures { claimed.new.keys ≡ claimed.old.keys ++ place ∷ [] }
{
    let _ = claimed.insert(place).unwrap();
}

fn drop_claim(claimed: &mut IndexSet<u64>, place: u64)
    ensures { claimed.new.keys ≡ without_place place claimed.old.keys }
{
    claimed.retain(|k| *k != place);
}

fn drop_place(places: &mut Vec<u64>, place: u64)
    ensures { places.new.items ≡ without_place place places.old.items }
{
    places.retain(|k| *k != place);
}

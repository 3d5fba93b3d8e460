//! Responses that wait.
ghost use Rattle.std.specs.Prelude.{◌≡◌, ◌≤◌, ◌<◌, ◌+◌, ◌++◌, ◌∷◌, [], ℕ, true, length, option_copied, IfOk, IfSome, IsSomeAnd, OnOk};
ghost use Rattle.std.specs.VecDeque.{deque_capacity};
ghost use Rattle.world_model.specs.Node.{without};
ghost use Rattle.node_core.specs.Duties.{earlier, unless_decided, first_waiting};
ghost use Rattle.node_core.specs.Outbox.{Rises, begins_to, first_undecided};

use crate::copies::push_copies;
use crate::decisions::Decisions;
use canton_model::Response;
use node_state::ResponseList;
use std::alloc::{AllocError, Global};
use std::collections::VecDeque;
use std::marker::Model;

/// The responses of a participant that wait, in the order in which they came.
#[derive(Drop)]
pub struct Outbox {
    responses: VecDeque<Response>,
    // Where the places are known to rise, a place above all of them.
    rises_to: Option<u64>,
}

impl Model for Outbox {
    ghost use Rattle.std.specs.Prelude.{IfSome};
    ghost use Rattle.std.specs.VecDeque.{deque_capacity};
    ghost use Rattle.node_core.specs.Outbox.{Rises, Waiting};

    ghost Value = { Waiting };

    ghost view = { λ o. record { responses = o.responses.items; capacity = deque_capacity o.responses } };

    ghost invariant = { λ o. IfSome o.rises_to (λ high. Rises 0 o.responses.items high) };
}

fn earlier<'a>(response: Option<&'a Response>, later: Option<&'a Response>) -> Option<&'a Response>
    ensures { option_copied result ≡ earlier (option_copied response.entry) (option_copied later.entry) }
{
    match (response, later) {
        (None, _) => later,
        (Some(_), None) => response,
        (Some(a), Some(b)) => {
            if a.request <= b.request {
                response
            } else {
                later
            }
        }
    }
}

fn unless_decided<'a, D: Decisions>(decisions: &D, response: &'a Response) -> Option<&'a Response>
    ensures { option_copied result ≡ unless_decided (D.decided decisions.now) response.now }
{
    if decisions.has_decided(response.request) {
        None
    } else {
        Some(response)
    }
}

// The response to the least place among these whose request isn't decided.
fn first_waiting<'a, D: Decisions>(decisions: &D, responses: &'a [Response]) -> Option<&'a Response>
    ensures { option_copied result ≡ first_waiting (D.decided decisions.now) responses.now }
{
    let mut first = None;
    for response in responses {
        first = earlier(first, unless_decided(decisions, response));
    }
    first
}

// The first as they stand whose request isn't decided.
fn first_undecided<'a, D: Decisions>(
    decisions: &D,
    responses: &'a [Response],
) -> Option<&'a Response>
    ensures { option_copied result ≡ first_undecided (D.decided decisions.now) responses.now }
{
    for response in responses {
        if !decisions.has_decided(response.request) {
            return Some(response);
        }
    }
    None
}

// The first response of two slices, one behind the other, whose request isn't decided.
fn first_of_both<'a, D: Decisions>(
    decisions: &D,
    front: &'a [Response],
    back: &'a [Response],
) -> Option<&'a Response>
    ensures { option_copied result ≡ first_undecided (D.decided decisions.now) (front.now ++ back.now) }
{
    match first_undecided(decisions, front) {
        Some(response) => Some(response),
        None => first_undecided(decisions, back),
    }
}

// A place above all, where those before rise to `rises_to` and a response to `place` is put behind them.
fn rises_with(rises_to: Option<u64>, place: u64) -> Option<u64>
    ensures { IfSome result (λ high. (high ≡ place + 1) × IsSomeAnd rises_to (λ before. before ≤ place)) }
{
    let before = rises_to?;
    if place < before {
        return None;
    }
    place.checked_add(1)
}

fn begins_to(responses: &VecDeque<Response>, request: u64) -> bool
    ensures { result ≡ begins_to request responses.now.items }
{
    match responses.front() {
        Some(response) => response.request == request,
        None => false,
    }
}

fn remove_all(responses: &mut VecDeque<Response>, request: u64)
    ensures items { responses.new.items ≡ without request responses.old.items }
    ensures capacity { deque_capacity responses.new ≡ deque_capacity responses.old }
{
    responses.retain(|response| response.request != request);
}

fn remove_from(responses: &mut VecDeque<Response>, rises: bool, request: u64)
    requires { rises ≡ true → (high : ℕ) × Rises 0 responses.old.items high }
    ensures items { responses.new.items ≡ without request responses.old.items }
    ensures capacity { deque_capacity responses.new ≡ deque_capacity responses.old }
{
    if rises && begins_to(responses, request) {
        let _ = responses.pop_front();
    } else {
        remove_all(responses, request);
    }
}

impl Outbox {
    /// An empty outbox.
    pub fn new(alloc: Global) -> Outbox
        ensures { result.responses ≡ [] }
    {
        Outbox {
            responses: VecDeque::new(alloc),
            rises_to: Some(0),
        }
    }

    /// Makes room for `more` responses beside those that wait. An error leaves the responses as they were.
    pub fn reserve(&mut self, more: usize) -> Result<(), AllocError>
        ensures responses { self.new.responses ≡ self.old.responses }
        ensures kept { self.old.capacity ≤ self.new.capacity }
        ensures room { OnOk result (length self.new.responses + more ≤ self.new.capacity) }
    {
        self.responses.reserve(more)
    }

    /// Puts a response behind the others, in room that was made ahead. Takes no memory.
    pub fn push_within(&mut self, response: Response)
        requires room { length self.old.responses < self.old.capacity }
        ensures responses { self.new.responses ≡ self.old.responses ++ response ∷ [] }
        ensures capacity { self.new.capacity ≡ self.old.capacity }
    {
        self.rises_to = rises_with(self.rises_to, response.request);
        self.responses.push_back_reserved(response);
    }

    /// Takes the response to the request at the place `request` out, if one waits. Takes no memory.
    pub fn remove(&mut self, request: u64)
        ensures responses { self.new.responses ≡ without request self.old.responses }
        ensures capacity { self.new.capacity ≡ self.old.capacity }
    {
        remove_from(&mut self.responses, self.rises_to.is_some(), request);
        if self.responses.is_empty() {
            self.rises_to = Some(0);
        }
    }

    /// Copies of the responses, in the order in which they came.
    pub fn copied(&self, alloc: Global) -> Result<ResponseList, AllocError>
        ensures { IfOk result (λ copies. copies ≡ self.now.responses) }
    {
        let mut copies = ResponseList::new(alloc);
        let (front, back) = self.responses.as_slices();
        push_copies(alloc, front, &mut copies)?;
        push_copies(alloc, back, &mut copies)?;
        Ok(copies)
    }

    /// The response to the least place among those whose request isn't decided, and none where there is none.
    pub fn first_waiting<D: Decisions>(&self, decisions: &D) -> Option<&Response>
        ensures { option_copied result ≡ first_waiting (D.decided decisions.now) self.now.responses }
    {
        let (front, back) = self.responses.as_slices();
        if self.rises_to.is_some() {
            first_of_both(decisions, front, back)
        } else {
            earlier(
                first_waiting(decisions, front),
                first_waiting(decisions, back),
            )
        }
    }
}

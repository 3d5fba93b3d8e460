//! Clients that submit and ask, and go out of use.
ghost use Rattle.std.specs.Prelude.{◌≡◌, ◌<◌, ◌≤◌, ℕ, true, length, IfSome};
ghost use Rattle.lang_eval.specs.Named.{AreKnown};
ghost use Rattle.sealed_form.specs.Within.{is_hosted};
ghost use Rattle.prepare_request.specs.Within.{parties_in_what};
ghost use Rattle.sync_shared.specs.Slips.{InRow};

use crate::answer::Answer;
use crate::sharing::telling::{put_ticket, put_told};
use confirm_reply::Setup;
use lane_pool::FreeGate;
use ledger_terms::{ParticipantId, Submission};
use log_row::Slip;
use shared_world::Synchroniser;
use std::alloc::AllocGlobal;
use std::random::RandomSource;
use std::sync::Wait;
use sync_shared::{Client, Session, Ticket};

/// How many turns are taken.
const TURNS: u32 = 64;

/// What remains of a client that has gone out of use: the slip of the last entry that it had seen, None where it saw none, and its ticket, None where
/// its request wasn't sent.
#[derive(Drop)]
pub(crate) struct Left<'r> {
    pub(crate) last: Option<Slip<'r>>,
    pub(crate) ticket: Option<Ticket<'r>>,
}

// Whether the topology has such a participant.
fn is_host(setup: &Setup, participant: ParticipantId) -> bool
    ensures { result ≡ true → participant < length setup.now.topology.hosts }
{
    (participant.0 as usize) < setup.topology.hosts.len()
}

/// A client submits, asks, takes turns as the only lane, and asks again. Puts what it is told at the end.
pub(crate) fn submit_and_ask<'r, S: Session, R: Wait + RandomSource + AllocGlobal>(
    rt: &R,
    setup: &Setup,
    shared: &mut Synchroniser<'r, S>,
    what: &Submission,
    out: &mut Answer,
) -> Left<'r>
    requires topology { setup.now.topology ≡ S.topology }
    requires parts { S.parts ≡ 1025 }
    requires clients { shared.old.out ≡ 0 }
    requires named { AreKnown (is_hosted S.topology) (parties_in_what what.now.what) }
    ensures clients { shared.new.out ≡ 0 }
    ensures round { shared.new.round ≡ shared.old.round }
    ensures last { InRow S.history result.last }
    ensures ticket { IfSome result.ticket (λ t. t.row ≡ S.history) }
{
    if !is_host(setup, what.participant) {
        out.line(&["not sent"]);
        return Left {
            last: None,
            ticket: None,
        };
    }
    let mut client = shared.client(what.participant);
    let Ok(mut ticket) = shared.submit(rt, &mut client, what) else {
        out.line(&["not sent"]);
        return Left {
            last: shared.retire(client),
            ticket: None,
        };
    };
    put_ticket(&setup.topology, &ticket, out);
    ask(rt, shared, &mut client, &mut ticket, out);
    take_turns(rt, shared, out);
    ask(rt, shared, &mut client, &mut ticket, out);
    Left {
        last: shared.retire(client),
        ticket: Some(ticket),
    }
}

/// A new client of a ticket's participant asks by the ticket. Puts what it is told at the end.
pub(crate) fn ask_by<'r, S: Session, R: Wait>(
    rt: &R,
    setup: &Setup,
    shared: &mut Synchroniser<'r, S>,
    ticket: Option<Ticket<'r>>,
    out: &mut Answer,
)
    requires topology { setup.now.topology ≡ S.topology }
    requires parts { S.parts ≡ 1025 }
    requires clients { shared.old.out ≡ 0 }
    requires ticket { IfSome ticket (λ t. t.row ≡ S.history) }
    requires bases { (p : ℕ) → S.bases p ≡ 0 }
    ensures clients { shared.new.out ≡ 0 }
    ensures round { shared.new.round ≡ shared.old.round }
{
    if let Some(mut ticket) = ticket {
        if is_host(setup, ticket.participant()) {
            let mut client = shared.client(ticket.participant());
            ask(rt, shared, &mut client, &mut ticket, out);
            let _last = shared.retire(client);
        }
    }
}

// A client asks what became of a ticket's request.
fn ask<'r, S: Session, R: Wait>(
    rt: &R,
    shared: &Synchroniser<'r, S>,
    client: &mut Client<'r, S>,
    ticket: &mut Ticket<'r>,
    out: &mut Answer,
)
    requires ticket { (ticket.old.row ≡ S.history) × (ticket.old.me ≡ client.old.me) }
    requires base { S.bases client.old.me ≤ ticket.old.place }
    ensures same { ticket.new ≡ ticket.old }
    ensures client { client.new.me ≡ client.old.me }
{
    match shared.completion(rt, client, ticket) {
        Ok(completion) => put_told(&completion, out),
        Err(_) => out.lack(),
    }
}

// Takes turns as the only lane, which serves everybody.
fn take_turns<'r, S: Session, R: Wait + RandomSource + AllocGlobal>(
    rt: &R,
    shared: &Synchroniser<'r, S>,
    out: &mut Answer,
) {
    for _ in 0..TURNS {
        if shared.turn(rt, 0, 1, &FreeGate).is_err() {
            out.lack();
        }
    }
}

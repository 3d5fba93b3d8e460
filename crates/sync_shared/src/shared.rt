//! What threads share.
ghost use Rattle.std.specs.Prelude.{◌≡◌, ◌+◌, ◌<◌, ◌≤◌, ◌^◌, [], List, true, false, Err, length, take, IfOk, IfErr, IfSome, OnOk, OnErr};
ghost use Rattle.lang_eval.specs.Named.{AreKnown};
ghost use Rattle.canton_model.specs.Log.{decision_time_of};
ghost use Rattle.canton_model.specs.Timeline.{outcome_of, timeline_of};
ghost use Rattle.sealed_form.specs.Within.{is_hosted};
ghost use Rattle.world_model.specs.Messages.{Entry};
ghost use Rattle.world_model.specs.Locks.{SequencerBehind};
ghost use Rattle.world_model.specs.Places.{has_place};
ghost use Rattle.threads_model.specs.Inputs.{one_if};
ghost use Rattle.threads_model.specs.Clients.{ClientStep};
ghost use Rattle.prepare_request.specs.Causes.{HoldsNoMemory};
ghost use Rattle.prepare_request.specs.Within.{parties_in_what};
ghost use Rattle.prepare_request.specs.declared.submit_fault.SubmitFault.TheVariants.{Paused};
ghost use Rattle.node_core.specs.Completion.{completion_of};
ghost use Rattle.sync_shared.specs.Answers.{answer_of, has_ticket};
ghost use Rattle.sync_shared.specs.Behind.{AreNodesBehind, IsLogBehind, IsMediatorBehind};
ghost use Rattle.sync_shared.specs.Slips.{IsTicked, InRow, read_to};
ghost use mathlib.Core.List.{IsPrefix};

use crate::client::Client;
use crate::completing::complete;
use crate::lane::{mediate, serve};
use crate::locked_log::{LockedLog, reached, slip_to};
use crate::locked_mediator::LockedMediator;
use crate::locked_nodes::LockedNodes;
use crate::round_rules::RoundRules;
use crate::session::Session;
use crate::submitting::submit_awake;
use crate::sync_parts::SyncParts;
use crate::ticket::Ticket;
use lane_pool::Gate;
use ledger_terms::{ParticipantId, ParticipantIdList, Submission};
use log_row::Slip;
use node_core::{Completion, SubmitFault, SubmitRefusal};
use std::alloc::{AllocError, AllocGlobal, Global};
use std::random::RandomSource;
use std::sync::ledger::{Book, Share};
use std::sync::{Mutex, Wait};

/// What threads share of a synchroniser: the log, the mediator and each participant behind a lock, and beside them what the round
/// says. Where two locks are held, the participant's is taken first, and the log's second.
#[derive(Drop)]
pub struct Shared<'r, S: Session> {
    pub round: RoundRules,
    log: Mutex<LockedLog<'r, S>>,
    mediator: Mutex<LockedMediator<'r, S>>,
    nodes: LockedNodes<'r, S>,
    ghost timely: { round.time ≤ 10 ^ 16 },
}

// Whether the list names the participant.
fn names(participants: &[ParticipantId], p: ParticipantId) -> bool
    ensures { result ≡ has_place participants.now p }
{
    participants.iter().any(|q| p == *q)
}

impl<'r, S: Session> Shared<'r, S> {
    /// Puts the parts behind locks, without memory. What comes into the log is counted by the book `count`. In the round nobody is paused and no verdicts
    /// are held. `alloc` is what calls allocate from.
    pub fn of(alloc: Global, parts: SyncParts<'r>, count: Book<S>) -> Shared<'r, S>
        requires most { length (S.topology).hosts ≤ 8 }
        requires many { length (parts.nodes).items ≡ length (S.topology).hosts }
        requires log { IsLogBehind S.history S.machine S.start count.total parts.sequencer }
        requires nodes { AreNodesBehind S.topology S.packages S.machine S.why S.bases (parts.sequencer).list (parts.nodes).items }
        requires within { (parts.mediator).cursor ≤ length (parts.sequencer).list }
        requires mediator { IsMediatorBehind S.machine (take (parts.mediator).cursor (parts.sequencer).list) parts.mediator }
        requires time { parts.time ≤ 10 ^ 16 }
        ensures { result.round ≡ record { time = parts.entry.time; paused = []; hold_verdicts = false } }
    {
        let SyncParts {
            mut sequencer,
            mediator,
            nodes,
            time,
        } = parts;
        let read = slip_to(&mut sequencer, mediator.cursor());
        let nodes = LockedNodes::of(alloc, nodes, &mut sequencer);
        Shared {
            round: RoundRules {
                time,
                paused: ParticipantIdList::new(alloc),
                hold_verdicts: false,
            },
            log: Mutex::new(LockedLog::of(sequencer, count)),
            mediator: Mutex::new(LockedMediator::of(mediator, read)),
            nodes,
        }
    }

    /// Takes the parts out of their locks, without memory. `home` has to hold all shares of the book, so its amount is how many requests and Ticks have
    /// come in. What the mediator and each participant have read begins the log.
    pub fn into_parts(self, home: &mut Share<S>) -> SyncParts<'r>
        requires { home.old.parts ≡ S.parts }
        ensures log { IsLogBehind S.history S.machine S.start home.old.amount result.sequencer }
        ensures many { length (result.nodes).items ≡ length (S.topology).hosts }
        ensures nodes { AreNodesBehind S.topology S.packages S.machine S.why S.bases (result.sequencer).list (result.nodes).items }
        ensures mediator { (read : List Entry) × IsPrefix read (result.sequencer).list × IsMediatorBehind S.machine read result.mediator }
        ensures time { result.time ≡ self.entry.round.time }
    {
        let Shared {
            round,
            log,
            mediator,
            nodes,
        } = self;
        let mut sequencer = log.into_inner().close(home);
        let (mediator, mut last) = mediator.into_inner().into_parts();
        reached(&mut sequencer, &mut last);
        let nodes = nodes.into_nodes(&mut sequencer);
        SyncParts {
            sequencer,
            mediator,
            nodes,
            time: round.time,
        }
    }

    /// Begins a round with what it says: its time, who is paused and whether verdicts are held. With `has_tick` a Tick of its time is appended, and
    /// counted with the share `home`, which has to hold at least one of the parts of the book. `known` is the slip of some entry of the log, None for
    /// none; it becomes the Tick's, and without a Tick it stays. After want of memory all is as before.
    pub fn begin(
        &mut self,
        home: &mut Share<S>,
        known: &mut Option<Slip<'r>>,
        round: RoundRules,
        has_tick: bool,
    ) -> Result<(), AllocError>
        requires time { round.time ≤ 10 ^ 16 }
        requires parts { 0 < home.old.parts }
        requires row { InRow S.history known.old }
        ensures round { OnOk result (self.new.round ≡ round) }
        ensures tick { OnOk result (has_tick ≡ true → IsTicked round.time (read_to known.old) (read_to known.new)) }
        ensures still { OnOk result (has_tick ≡ false → known.new ≡ known.old) }
        ensures row { InRow S.history known.new }
        ensures counted { OnOk result (home.new.amount ≡ home.old.amount + one_if has_tick) }
        ensures err { OnErr result ((self.new.round ≡ self.old.round) × (home.new.amount ≡ home.old.amount) × (known.new ≡ known.old)) }
        ensures parts { home.new.parts ≡ home.old.parts }
    {
        if has_tick {
            let log = self.log.get_mut();
            log.reaches(known);
            *known = Some(log.tick(home, round.time)?);
        }
        self.round = round;
        Ok(())
    }

    /// Whether the participant is paused in the round.
    pub fn is_paused(&self, participant: ParticipantId) -> bool
        ensures { result ≡ has_place self.now.round.paused participant }
    {
        names(self.round.paused.as_slice(), participant)
    }

    /// Submits for the client's participant, which first reads at least what the client has seen; a paused one doesn't read, and refuses as Paused. The
    /// ticket is that of the request that was appended. An Err says why none was, and how many entries had been read, or seen by the client of a paused
    /// one; after want of memory nothing was appended. `rt` is what the thread waits by at the locks.
    pub fn submit<R: Wait>(
        &self,
        rt: &R,
        client: &mut Client<'r, S>,
        what: &Submission,
    ) -> Result<Ticket<'r>, SubmitRefusal>
        requires mine { what.now.participant ≡ client.old.me }
        requires named { AreKnown (is_hosted S.topology) (parties_in_what what.now.what) }
        ensures step { IfSome (answer_of result) (λ r. ClientStep S.machine S.why self.now.round.time self.now.round.paused client.old.list
            what.now r client.new.list) }
        ensures paused { has_place self.now.round.paused what.now.participant ≡ true
            → (result ≡ Err (record { fault = Paused; read_to = length client.old.list })) × (client.new ≡ client.old) }
        ensures genuine { has_place self.now.round.paused what.now.participant ≡ false
            → IfSome (answer_of result) (λ r. SequencerBehind S.machine client.new.list) }
        ensures ticket { IfOk result (λ t. (t.row ≡ S.history) × (t.list ≡ client.new.list) × (t.me ≡ client.old.me)) }
        ensures base { IfOk result (λ t. S.bases client.old.me ≤ t.place) }
        ensures tickets { client.new.tickets ≡ client.old.tickets + one_if (has_ticket result) }
        ensures seen { IsPrefix client.old.list client.new.list }
        ensures me { client.new.me ≡ client.old.me }
        ensures plain { IfErr result (λ refusal. HoldsNoMemory refusal.fault) }
    {
        if self.is_paused(client.participant()) {
            return Err(SubmitRefusal {
                fault: SubmitFault::Paused,
                read_to: client.seen(),
            });
        }
        submit_awake(rt, &self.log, &self.nodes, client, what, self.round.time)
    }

    /// What became of a ticket's request, whose place isn't below its participant's base. The participant, paused or not, first reads at least what the
    /// client has seen and past the request, and the client has then seen as much. After want of memory the client has seen no more.
    pub fn completion<R: Wait>(
        &self,
        rt: &R,
        client: &mut Client<'r, S>,
        ticket: &mut Ticket<'r>,
    ) -> Result<Completion, AllocError>
        requires ticket { (ticket.old.row ≡ S.history) × (ticket.old.me ≡ client.old.me) }
        requires base { S.bases client.old.me ≤ ticket.old.place }
        ensures same { ticket.new ≡ ticket.old }
        ensures seen { IsPrefix client.old.list client.new.list }
        ensures client { (client.new.tickets ≡ client.old.tickets) × (client.new.me ≡ client.old.me) }
        ensures holds { OnOk result (IsPrefix ticket.old.list client.new.list) }
        ensures genuine { OnOk result (SequencerBehind S.machine client.new.list) }
        ensures answer { IfOk result (λ c. c ≡ completion_of (length client.new.list)
            (outcome_of (timeline_of client.new.list) ticket.old.place (decision_time_of S.machine.params client.new.list ticket.old.place))) }
        ensures err { OnErr result (client.new ≡ client.old) }
    {
        complete(rt, &self.log, &self.nodes, client, ticket)
    }

    /// A turn of lane `lane` of `lanes`: each participant that isn't paused and whose index leaves `lane` when divided by `lanes` reads to the end and
    /// checks one request or else sends one response; in lane 0 the mediator reads too and, unless verdicts are held, hands in one. The result is
    /// whether any did. The gate is passed before each view. A check ends without a response once its participant has read that the request is decided.
    pub fn turn<R: Wait + RandomSource + AllocGlobal, G: Gate>(
        &self,
        rt: &R,
        lane: u32,
        lanes: u32,
        gate: &G,
    ) -> Result<bool, AllocError>
        requires { 0 < lanes }
    {
        let mut worked = false;
        for at in 0..8u8 {
            if at as u32 % lanes == lane
                && !self.is_paused(ParticipantId(at))
                && serve(rt, &self.log, &self.nodes, at, gate)?
            {
                worked = true;
            }
        }
        if lane == 0 && mediate(rt, &self.log, &self.mediator, self.round.hold_verdicts)? {
            worked = true;
        }
        Ok(worked)
    }
}

//! A participant.
ghost use Rattle.std.specs.Prelude.{◌≡◌, ◌≢◌, ◌<◌, ◌++◌, ◌∷◌, [], true, false, List, Err, None, Some, length, is_some, option_map};
ghost use Rattle.std.specs.Prelude.{MatchResult, IfOk, IfErr, IfSome, IfNone, OnOk, OnErr};
ghost use Rattle.ledger_terms.specs.Answers.{Follows};
ghost use Rattle.ledger_terms.specs.Topologies.{IsValid};
ghost use Rattle.canton_model.specs.Inbox.{Item, clean, clean_time, inbox, node_log, notice_at, outcome_in, withheld};
ghost use Rattle.world_model.specs.Messages.{Entry};
ghost use Rattle.world_model.specs.Places.{has_place};
ghost use Rattle.world_model.specs.Node.{claim, finish, put_back, read_entry, sent, with_flag};
ghost use Rattle.sealed_form.specs.SealedForm.{IsSealedForm};
ghost use Rattle.validate_job.specs.Owed.{owed_on_each};
ghost use Rattle.pruned_inbox.specs.Start.{active_kept};
ghost use Rattle.node_inbox.specs.InboxState.{decided_since};
ghost use Rattle.prepare_request.specs.Causes.{HoldsNoMemory};
ghost use Rattle.prepare_request.specs.Machine.{Offered, prepare_over, why_over};
ghost use Rattle.prepare_request.specs.Opens.{OpensByRules};
ghost use Rattle.prepare_request.specs.Within.{IsWithin};
ghost use Rattle.prepare_request.specs.declared.submit_fault.SubmitFault.TheVariants as SubmitFault;
ghost use Rattle.node_core.specs.Completion.{completion_of};
ghost use Rattle.node_core.specs.Participant.{CanRead, IsPrunedTo, begun, is_decided_there, items_of, next_place, next_response, owed_there, owes_there};
ghost use Rattle.node_core.specs.Participant.{params_of, reading_of, response_there, with_state};
ghost use Rattle.node_core.specs.Preparing.{offered_by, prepare_answer};

mod states;

use crate::cancelled::Cancelled;
use crate::completion::Completion;
use crate::copies::{completion_by, copy_response};
use crate::duties::Duties;
use crate::remains::NodeRemains;
use canton_model::{Outcome, Request, Response};
use confirm_reply::Setup;
use lang_eval::NativeList;
use ledger_model::CommitList;
use ledger_terms::{ActiveRowList, ParticipantId, Submission, U64List};
use log_row::Slip;
use node_inbox::Inbox;
use prepare_request::SubmitFault;
use std::alloc::{AllocError, Global};
use std::marker::Model;
use validate_job::{Finished, ValidateJob};

/// One participant: what it has read of the log, what it owes and has claimed of that, and the responses that wait. `is_paused`
/// stops submissions alone.
#[derive(Drop)]
pub struct Node<'s> {
    setup: &'s Setup,
    me: ParticipantId,
    inbox: Inbox<'s>,
    duties: Duties,
    is_paused: bool,
}

impl<'s> Model for Node<'s> {
    ghost use Rattle.std.specs.Prelude.{◌≡◌};
    ghost use Rattle.node_core.specs.Participant.{Participant};

    ghost Value = { Participant };

    ghost use Rattle.ledger_terms.specs.Forest.{coded_forest};
    ghost use Rattle.ledger_terms.specs.Packages.{coded_package};
    ghost use Rattle.std.specs.Coded.{codes};

    ghost coded = { Prim.hlevel (codes, coded_forest, coded_package) };

    ghost use Rattle.node_core.specs.Duties.{state_of};

    ghost view = { λ n. record {
      topology = n.inbox.topology;
      packages = n.inbox.packages;
      me = n.inbox.me;
      base = n.inbox.base;
      base_time = n.inbox.base_time;
      start = n.inbox.start;
      state = state_of n.inbox.items n.is_paused n.duties;
    } };

    ghost use Rattle.node_inbox.specs.InboxState.{params_of, reading_of};
    ghost use Rattle.node_core.specs.Kept.{IsKept};

    ghost invariant = { λ n. (n.me ≡ n.inbox.me) × IsKept (reading_of n.inbox) (params_of n.inbox) n.inbox.me n.inbox.items n.duties
        × (n.setup.now.topology ≡ n.inbox.topology) × (n.setup.now.checked ≡ n.inbox.packages) };
}

impl<'s> Node<'s> {
    /// A participant that has read nothing.
    pub fn new(alloc: Global, setup: &'s Setup, me: ParticipantId) -> Node<'s>
        ensures { result ≡ begun setup.now.topology setup.now.checked me }
    {
        Node {
            setup,
            me,
            inbox: Inbox::new(alloc, setup, me),
            duties: Duties::new(alloc),
            is_paused: false,
        }
    }

    /// Which participant it is.
    pub fn me(&self) -> ParticipantId
        ensures { result ≡ self.now.me }
    {
        self.me
    }

    /// The place below which it has forgotten what it read. It is 0 where it has forgotten nothing. Takes no memory.
    pub fn base(&self) -> u64
        ensures { result ≡ self.now.base }
    {
        self.inbox.base()
    }

    /// How many entries it has read, with those that are forgotten: the place of the next one.
    pub fn cursor(&self) -> u64
        ensures { result ≡ length (items_of self.now) }
    {
        self.inbox.cursor()
    }

    /// Its clean place: the place of the first request received that isn't decided at the cursor, and the cursor where there is none.
    pub fn clean(&self) -> u64
        ensures { result ≡ clean (params_of self.now) (items_of self.now) }
    {
        self.inbox.clean()
    }

    /// The time of the entry before the clean place, in microseconds, and 0 where there is none.
    pub fn clean_time(&self) -> u64
        ensures { result ≡ clean_time (params_of self.now) (items_of self.now) }
    {
        self.inbox.clean_time()
    }

    /// Whether it takes no submissions.
    pub fn paused(&self) -> bool
        ensures { result ≡ self.now.state.is_paused }
    {
        self.is_paused
    }

    /// Pauses it, so that it takes no submissions, or ends the pause. It reads and answers in a pause, too, where it is asked to.
    pub fn set_paused(&mut self, paused: bool)
        ensures { self.new ≡ with_state self.old (with_flag self.old.state paused) }
    {
        self.is_paused = paused;
    }

    /// Reads the slip's entry, which stands at the cursor. Takes all memory before it changes anything, so an error leaves it as it was.
    pub fn read(&mut self, slip: &Slip<'_>) -> Result<(), AllocError>
        requires { CanRead self.old slip.now.list }
        ensures ok { OnOk result ((before : List Entry) (entry : Entry) → slip.now.list ≡ before ++ entry ∷ []
            → self.new ≡ with_state self.old (read_entry (reading_of self.old) self.old.me self.old.state before entry)) }
        ensures inbox { OnOk result (IsPrunedTo (inbox (reading_of self.old) self.old.me slip.now.list) self.new) }
        ensures err { OnErr result (self.new ≡ self.old) }
    {
        let place = slip.place();
        self.duties.reserve()?;
        self.inbox.read(slip.entry(), slip.outline())?;
        if self.inbox.owes(place) {
            self.duties.owe(place);
        }
        Ok(())
    }

    /// Claims the first request that it owes verdicts to and that is undecided at the cursor and not claimed, and gives the job of checking it. None
    /// where there is no such request. After want of memory nothing is claimed.
    pub fn claim_job(&mut self, alloc: Global) -> Result<Option<ValidateJob<'s>>, AllocError>
        ensures place { IfOk result (λ o. option_map (λ job. job.given.place) o ≡ next_place self.old) }
        ensures verdicts { IfOk result (λ o. IfSome o (λ job. owed_on_each job.given.input job.given.views ≡ owed_there self.old job.given.place)) }
        ensures left { IfOk result (λ o. IfSome o (λ job. (0 < job.left) × (job.left ≡ length job.given.views))) }
        ensures none { IfOk result (λ o. IfNone o (self.new ≡ self.old)) }
        ensures some { IfOk result (λ o. IfSome o (λ job. self.new ≡ with_state self.old (claim self.old.state job.given.place))) }
        ensures err { OnErr result (self.new ≡ self.old) }
    {
        let Some(place) = self.duties.next_place(&self.inbox) else {
            return Ok(None);
        };
        let job = self.inbox.job(alloc, place)?;
        self.duties.claim(place)?;
        Ok(Some(job))
    }

    /// Puts the response with the verdicts of a job that has ended into the outbox. Takes no memory. Where the request is decided at the cursor the
    /// job comes too late, and all is as before: the place is still claimed and unfinished.
    pub fn finish_job(&mut self, done: Finished) -> Result<(), Cancelled>
        requires unfinished { has_place self.old.state.unfinished done.place ≡ true }
        requires verdicts { done.verdicts ≡ owed_there self.old done.place }
        ensures undecided { OnOk result (is_decided_there self.old done.place ≡ false) }
        ensures ok { OnOk result (self.new ≡ with_state self.old (finish self.old.state (response_there self.old done.place))) }
        ensures decided { OnErr result (is_decided_there self.old done.place ≡ true) }
        ensures place { IfErr result (λ c. c.place ≡ done.place) }
        ensures decided_at { IfErr result (λ c. c.decided_at ≡ decided_since (params_of self.old) (items_of self.old) done.place) }
        ensures err { OnErr result (self.new ≡ self.old) }
    {
        let Finished { place, verdicts } = done;
        if self.inbox.is_decided(place) {
            let decided_at = self.inbox.decided_since(place);
            return Err(Cancelled { place, decided_at });
        }
        self.duties.finish(Response {
            from: self.me,
            request: place,
            verdicts,
        });
        Ok(())
    }

    /// The least place up to the cursor at which the request that it received at `place` is decided: the place behind its verdict, or that of the
    /// first entry after its decision time. None where the request is undecided. Goes through what was read from the request on.
    pub fn decided_at(&self, place: u64) -> Option<u64>
        requires { is_some (notice_at (items_of self.now) place) ≡ true }
        ensures undecided { IfNone result (is_decided_there self.now place ≡ false) }
        ensures decided { IfSome result (λ at. is_decided_there self.now place ≡ true) }
        ensures decided_at { IfSome result (λ at. at ≡ decided_since (params_of self.now) (items_of self.now) place) }
    {
        if !self.inbox.is_decided(place) {
            return None;
        }
        Some(self.inbox.decided_since(place))
    }

    /// Whether the job of the request at a place was given out and neither finished nor put back.
    pub fn unfinished(&self, place: u64) -> bool
        ensures { result ≡ has_place self.now.state.unfinished place }
    {
        self.duties.is_unfinished(place)
    }

    /// Gives up the claim of a request and the response to it, so that it is claimed again while it is undecided. Takes no memory.
    pub fn put_back(&mut self, place: u64)
        requires { owes_there self.old place ≡ true }
        ensures { self.new ≡ with_state self.old (put_back self.old.state place) }
    {
        self.duties.put_back(place);
    }

    /// A copy of the response that is to be sent next: that to the least place among those in the outbox whose request is undecided at the cursor.
    /// None where there is none.
    pub fn outbox(&self, alloc: Global) -> Result<Option<Response>, AllocError>
        ensures { IfOk result (λ response. response ≡ next_response self.now) }
    {
        match self.duties.first_waiting(&self.inbox) {
            Some(response) => Ok(Some(copy_response(alloc, response)?)),
            None => Ok(None),
        }
    }

    /// Takes the response to the request at the place `request` out of the outbox, since it was handed in or is lost. Takes no memory.
    pub fn sent(&mut self, request: u64)
        ensures { self.new ≡ with_state self.old (sent self.old.state request) }
    {
        self.duties.sent(request);
    }

    /// The request that a submission of this participant wants over the contracts active at the cursor, or the first fault, Paused in a pause. `now` is
    /// the ledger time, in microseconds, of a submission that has none. `natives` are asked for the choices that they have, in place of the language.
    /// Memory is taken from where the submission has its own.
    pub fn prepare(
        &self,
        natives: &NativeList,
        what: &Submission,
        now: u64,
    ) -> Result<Request, SubmitFault>
        requires valid { IsValid self.now.topology }
        requires within { IsWithin self.now.topology self.now.packages self.now.me (offered_by self.now) what.now }
        ensures paused { self.now.state.is_paused ≡ true → result ≡ Err SubmitFault.Paused }
        ensures exact { Follows SubmitFault.Memory result (prepare_answer self.now what.now now) }
        ensures wanted { (offered : Offered) (items : List Item) → what.now.participant ≡ self.now.me → offered self.now.me items ≡ offered_by self.now
            → MatchResult result (λ request. prepare_over self.now.topology self.now.packages offered what.now items now ≡ Some request)
            (λ fault. fault ≢ SubmitFault.Memory → fault ≢ SubmitFault.Paused
            → (prepare_over self.now.topology self.now.packages offered what.now items now ≡ None)
            × (why_over self.now.topology self.now.packages offered what.now items now ≡ fault)) }
        ensures sealed { IfOk result (λ request. IsSealedForm self.now.topology self.now.packages request) }
        ensures opens { IfOk result (λ request. OpensByRules self.now.topology self.now.packages request) }
        ensures framed { IfOk result (λ request. (reading_of self.now).is_framed request ≡ true) }
        ensures sender { IfOk result (λ request. request.sender ≡ self.now.me) }
        ensures command { IfOk result (λ request. request.command ≡ what.now.command) }
        ensures plain { IfErr result HoldsNoMemory }
    {
        if self.is_paused {
            return Err(SubmitFault::Paused);
        }
        let known = self.inbox.known()?;
        prepare_request::prepare(self.setup, natives, self.me, &known, what, now)
    }

    /// The commits of the approved requests from the base on and below the clean place, as they are opened to the participant, without those of which
    /// nothing is opened.
    pub fn applied(&self, alloc: Global) -> Result<CommitList, AllocError>
        ensures { IfOk result (λ commits. commits ≡ node_log (params_of self.now) (items_of self.now)) }
    {
        self.inbox.applied(alloc)
    }

    /// The commits of the approved requests from the base on and below the clean place, as they are opened to the participant, without those of which
    /// nothing is opened. They are made of the participant itself: actions that nobody else looks at are moved and not copied.
    pub fn into_applied(self) -> Result<CommitList, AllocError>
        ensures { IfOk result (λ commits. commits ≡ node_log (params_of self.entry) (items_of self.entry)) }
    {
        let Node { inbox, .. } = self;
        inbox.into_applied()
    }

    /// The places that are withheld from the participant, ascending: approved requests from its base on and below the clean place of which it sees a
    /// view and has no complete envelope.
    pub fn withheld(&self) -> Result<U64List, AllocError>
        ensures { IfOk result (λ places. places ≡ withheld (params_of self.now) (items_of self.now)) }
    {
        self.inbox.withheld()
    }

    /// Takes the participant apart, when nobody asks it any more: its inbox and its duties, without what it borrows. A program that ends forgets these
    /// remains, since giving them back piece by piece would take long.
    pub fn into_remains(self) -> NodeRemains {
        let Node { inbox, duties, .. } = self;
        NodeRemains::new(inbox.into_remains(), duties)
    }

    /// The active contracts with a hosted stakeholder at the clean place, in order of creation.
    pub fn active(&self, alloc: Global) -> Result<ActiveRowList, AllocError>
        ensures { IfOk result (λ rows. rows
            ≡ active_kept (reading_of self.now) self.now.me self.now.start (items_of self.now) (clean (params_of self.now) (items_of self.now))) }
    {
        self.inbox.active(alloc)
    }

    /// The active contracts with a hosted stakeholder at a place, in order of creation, by all that it has read. From its base up to its
    /// clean place they are the ledger's without what is withheld from it (`active_sets_are_exact`). Goes through the places below the one
    /// that is asked for.
    pub fn active_at(&self, alloc: Global, place: u64) -> Result<ActiveRowList, AllocError>
        ensures { IfOk result (λ rows. rows ≡ active_kept (reading_of self.now) self.now.me self.now.start (items_of self.now) place) }
    {
        self.inbox.active_at(alloc, place)
    }

    /// What became of a request that it received at a place, over what it has read.
    pub fn completion_of(&self, place: u64) -> Result<Completion, AllocError>
        requires { is_some (notice_at (items_of self.now) place) ≡ true }
        ensures { IfOk result (λ c. c ≡ completion_of (length (items_of self.now)) (outcome_in (params_of self.now) (items_of self.now) place)) }
    {
        let read_to = self.inbox.cursor();
        if let Some(decision) = self.inbox.decision(place) {
            return completion_by(decision, read_to);
        }
        match self.inbox.outcome(place) {
            Some(Outcome::Expired) => Ok(Completion::Expired { read_to }),
            _ => Ok(Completion::NotYet { read_to }),
        }
    }
}

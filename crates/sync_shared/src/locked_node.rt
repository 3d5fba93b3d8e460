//! A participant as it lies behind its lock.
ghost use Rattle.std.specs.Prelude.{◌≡◌, ◌≢◌, ◌+◌, ◌<◌, ◌≤◌, None, Some, length, is_some, true, IfOk, IfErr, IfNone, IfSome, OnOk, OnErr};
ghost use Rattle.lang_eval.specs.Named.{AreKnown};
ghost use Rattle.canton_model.specs.Inbox.{inbox};
ghost use Rattle.canton_model.specs.Log.{decision_time_of};
ghost use Rattle.canton_model.specs.Timeline.{outcome_of, timeline_of};
ghost use Rattle.sealed_form.specs.Within.{is_hosted};
ghost use Rattle.world_model.specs.Machine.{GenuineLog};
ghost use Rattle.world_model.specs.Locks.{Claimed, SequencerBehind};
ghost use Rattle.world_model.specs.Fits.{IsOwed};
ghost use Rattle.world_model.specs.Node.{owed_at};
ghost use Rattle.validate_job.specs.Owed.{owed_on_each};
ghost use Rattle.prepare_request.specs.Causes.{HoldsNoMemory};
ghost use Rattle.prepare_request.specs.Within.{parties_in_what};
ghost use Rattle.prepare_request.specs.declared.submit_fault.SubmitFault.TheVariants.{Memory};
ghost use Rattle.world_model.specs.Rounds.{Unwanted};
ghost use Rattle.node_core.specs.Completion.{completion_of};
ghost use Rattle.sync_shared.specs.Answers.{fault_of};
ghost use Rattle.sync_shared.specs.Behind.{IsNodeBehind};
ghost use Rattle.sync_shared.specs.Clients.{IsRequestBy};
ghost use Rattle.sync_shared.specs.Slips.{read_to, InRow, IsNextIn};
ghost use mathlib.Core.List.{IsPrefix};

use crate::locked_log::LockedLog;
use crate::prepared::prepared;
use crate::session::Session;
use crate::slips::{again, follows, tie};
use canton_model::{Request, Response};
use ledger_terms::Submission;
use log_row::Slip;
use node_core::{Completion, Node, SubmitFault};
use prepare_request::laws::faults_have_causes;
use std::alloc::{AllocError, Global};
use std::marker::{Model, PhantomData};
use validate_job::{Finished, ValidateJob};

/// The node of participant `I`, with the last slip that it has read and with what its calls allocate from. Contracts see the entries
/// that it has read.
#[derive(Drop)]
pub struct LockedNode<'r, S: Session, const I: u8> {
    alloc: Global,
    node: Node<'r>,
    last: Option<Slip<'r>>,
    of: PhantomData<S>,
}

impl<'r, S: Session, const I: u8> Model for LockedNode<'r, S, I> {
    ghost use Rattle.std.specs.Prelude.{List};
    ghost use Rattle.world_model.specs.Messages.{Entry};

    ghost Value = { List Entry };

    ghost use Rattle.sync_shared.specs.Behind.{IsNodeBehind};
    ghost use Rattle.sync_shared.specs.Slips.{read_to, InRow};

    ghost view = { λ n. read_to n.last };

    ghost invariant = { λ n. InRow S.history n.last × IsNodeBehind S.topology S.packages S.machine S.why S.bases I (read_to n.last) n.node };
}

impl<'r, S: Session, const I: u8> LockedNode<'r, S, I> {
    /// A node, to lie behind a lock, with the slip of the last entry that it has read, None where it has read none.
    pub fn of(alloc: Global, node: Node<'r>, last: Option<Slip<'r>>) -> LockedNode<'r, S, I>
        requires row { InRow S.history last }
        requires behind { IsNodeBehind S.topology S.packages S.machine S.why S.bases I (read_to last) node }
        ensures { result ≡ read_to last.entry }
    {
        LockedNode {
            alloc,
            node,
            last,
            of: PhantomData,
        }
    }

    /// The node, and the slip of the last entry that it has read, None where it has read none.
    pub fn into_parts(self) -> (Node<'r>, Option<Slip<'r>>)
        ensures row { InRow S.history result.1 }
        ensures same { read_to result.1 ≡ self.entry }
        ensures behind { IsNodeBehind S.topology S.packages S.machine S.why S.bases I self.entry result.0 }
    {
        let LockedNode {
            alloc: _,
            node,
            last,
            of: _,
        } = self;
        (node, last)
    }

    /// How many entries the node has read.
    pub fn cursor(&self) -> u64
        ensures cursor { result ≡ length self.now }
        ensures base { S.bases I ≤ result }
    {
        self.node.cursor()
    }

    /// Reads the entry of the slip, which has to be that of the next place. After want of memory it wasn't read.
    pub fn read(&mut self, mut slip: Slip<'r>) -> Result<(), AllocError>
        requires row { slip.row ≡ S.history }
        requires next { length slip.list ≡ length self.old + 1 }
        requires genuine { GenuineLog S.machine slip.list }
        ensures ok { OnOk result (self.new ≡ slip.entry.list) }
        ensures err { OnErr result (self.new ≡ self.old) }
    {
        tie(&mut self.last, &mut slip);
        self.node.read(&slip)?;
        self.last = Some(slip);
        Ok(())
    }

    /// The slip of the entry that the node reads next, and None exactly where it has read the log to its end.
    pub fn unread(&mut self, log: &mut LockedLog<'r, S>) -> Option<Slip<'r>>
        ensures same { (self.new ≡ self.old) × (log.new ≡ log.old) }
        ensures some { IfSome result (IsNextIn S.history S.machine self.old) }
        ensures none { IfNone result (self.old ≡ log.old) }
        ensures genuine { SequencerBehind S.machine log.old }
    {
        self.reaches(log);
        log.entry(self.cursor())
    }

    /// Changes nothing. The prover learns from it that what the node has read begins the log.
    pub fn reaches(&mut self, log: &mut LockedLog<'r, S>)
        ensures same { (self.new ≡ self.old) × (log.new ≡ log.old) }
        ensures begins { IsPrefix self.old log.old }
        ensures genuine { SequencerBehind S.machine log.old }
    {
        log.reaches(&mut self.last);
    }

    /// The slip of the last entry that the node has read, None where it has read none.
    pub fn last(&mut self) -> Option<Slip<'r>>
        ensures same { self.new ≡ self.old }
        ensures row { InRow S.history result }
        ensures list { read_to result ≡ self.old }
    {
        again(&mut self.last)
    }

    /// The request that a submission wants over what was read, or why it wants none; `now` is the round's time. Whether the participant is paused is
    /// tried before, by the round, so the node's own flag of that is cleared, and the answer is never Paused.
    pub fn prepare(&mut self, what: &Submission, now: u64) -> Result<Request, SubmitFault>
        requires mine { what.now.participant ≡ I }
        requires named { AreKnown (is_hosted S.topology) (parties_in_what what.now.what) }
        ensures same { self.new ≡ self.old }
        ensures wanted { IfOk result (λ request. S.machine.prepare what.now (inbox S.machine.reading I self.old) now ≡ Some request) }
        ensures framed { IfOk result (λ request. (S.machine.reading).is_framed request ≡ true) }
        ensures sender { IfOk result (λ request. request.sender ≡ I) }
        ensures unwanted { IfErr result (λ fault. fault ≢ Memory → (S.machine.prepare what.now (inbox S.machine.reading I self.old) now ≡ None)
            × (S.why what.now (inbox S.machine.reading I self.old) now ≡ fault) × (fault_of fault ≡ Some (Unwanted fault))) }
        ensures plain { IfErr result HoldsNoMemory }
    {
        // the prover learns from this call why submissions are refused
        faults_have_causes();
        self.node.set_paused(false);
        prepared(self.alloc, &self.node, what, now)
    }

    /// What became of the participant's own request at `place`, which isn't below its base, by what it has read.
    pub fn completion_of(&self, place: u64) -> Result<Completion, AllocError>
        requires base { S.bases I ≤ place }
        requires request { (list : _) × IsPrefix list self.now × IsRequestBy I place list }
        ensures { IfOk result (λ c. c ≡ completion_of (length self.now)
            (outcome_of (timeline_of self.now) place (decision_time_of S.machine.params self.now place))) }
    {
        self.node.completion_of(place)
    }

    /// Claims the first request to which the participant owes verdicts, and gives the job of checking it; None where there is none to claim. After want
    /// of memory nothing is claimed.
    pub fn claim_job(&mut self) -> Result<Option<ValidateJob<'r>>, AllocError>
        ensures same { self.new ≡ self.old }
        ensures left { IfOk result (λ o. IfSome o (λ job. 0 < job.left)) }
        ensures claimed { IfOk result (λ o. IfSome o (λ job. Claimed S.machine I self.old job.given.place)) }
        ensures base { IfOk result (λ o. IfSome o (λ job. S.bases I ≤ job.given.place)) }
        ensures verdicts { IfOk result (λ o. IfSome o (λ job. owed_on_each job.given.input job.given.views
            ≡ owed_at S.machine.reading S.machine.params I (inbox S.machine.reading I self.old) job.given.place)) }
    {
        self.node.claim_job(self.alloc)
    }

    /// Puts the response of the finished job into the outbox, where the claim still stands, the request isn't decided and the node has read no less than
    /// when it claimed the job. Else nothing comes of the job. `known` is the slip of what it had read then.
    pub fn finish_job(&mut self, known: &mut Option<Slip<'r>>, done: Finished)
        requires row { InRow S.history known.old }
        requires claimed { Claimed S.machine I (read_to known.old) done.place }
        requires base { S.bases I ≤ done.place }
        requires verdicts { done.verdicts ≡ owed_at S.machine.reading S.machine.params I (inbox S.machine.reading I (read_to known.old)) done.place }
        ensures same { self.new ≡ self.old }
    {
        if follows::<S>(known, &mut self.last) && self.node.unfinished(done.place) {
            // where the request is decided by now, no response is owed
            let _ = self.node.finish_job(done);
        }
    }

    /// The least place, by what was read, at which the request at `place`, which was claimed, is decided. None where it isn't decided, or less was read
    /// than when its job was claimed; `known` is the slip of what was read then.
    pub fn decided_at(&mut self, known: &mut Option<Slip<'r>>, place: u64) -> Option<u64>
        requires row { InRow S.history known.old }
        requires claimed { Claimed S.machine I (read_to known.old) place }
        requires base { S.bases I ≤ place }
        ensures same { (self.new ≡ self.old) × (known.new ≡ known.old) }
    {
        if !follows::<S>(known, &mut self.last) {
            return None;
        }
        self.node.decided_at(place)
    }

    /// A copy of the response that is sent next, which is owed over what was read; None where nothing waits.
    pub fn outbox(&self) -> Result<Option<Response>, AllocError>
        ensures { IfOk result (λ o. IfSome o (IsOwed S.machine.reading S.machine.params self.now)) }
    {
        self.node.outbox(self.alloc)
    }

    /// Takes the response to the request at the place `request`, which was handed in to the log, out of the outbox.
    pub fn sent(&mut self, request: u64)
        ensures same { self.new ≡ self.old }
    {
        self.node.sent(request);
    }
}

//! The log as it lies behind its lock, with the book of what comes in.
ghost use Rattle.std.specs.Prelude.{◌≡◌, ◌+◌, ◌<◌, ◌≤◌, ◌^◌, ◌++◌, ◌∷◌, [], None, Some, true, false, length, take, IfOk, IfErr, OnOk, OnErr, IfSome, IfNone};
ghost use Rattle.world_model.specs.Messages.{RequestMessage, Tick};
ghost use Rattle.world_model.specs.Machine.{GenuineLog};
ghost use Rattle.world_model.specs.Sequencing.{append_fault, entry_after};
ghost use Rattle.world_model.specs.Fits.{MayStand};
ghost use Rattle.world_model.specs.Locks.{SequencerBehind};
ghost use Rattle.seq_log.specs.Sequenced.{cause_of};
ghost use Rattle.threads_model.specs.Inputs.{is_input};
ghost use Rattle.sync_shared.specs.Behind.{IsLogBehind};
ghost use Rattle.sync_shared.specs.Slips.{read_to, InRow};
ghost use mathlib.Core.List.{IsPrefix};

use crate::session::Session;
use canton_model::{Message, Request};
use log_row::Slip;
use seq_log::{AppendFault, AppendRefusal, Sequencer};
use std::alloc::AllocError;
use std::marker::Model;
use std::sync::ledger::{Book, Share};

/// A sequencer of the history that `S` names, with the count of what came in since the sharing began. Contracts see its log.
#[derive(Drop)]
pub struct LockedLog<'r, S: Session> {
    sequencer: Sequencer<'r>,
    count: Book<S>,
}

impl<'r, S: Session> Model for LockedLog<'r, S> {
    ghost use Rattle.std.specs.Prelude.{List};
    ghost use Rattle.world_model.specs.Messages.{Entry};

    ghost Value = { List Entry };

    ghost use Rattle.sync_shared.specs.Behind.{IsLogBehind};

    ghost view = { λ log. log.sequencer.list };

    ghost invariant = { λ log. IsLogBehind S.history S.machine S.start log.count.total log.sequencer };
}

impl<'r, S: Session> LockedLog<'r, S> {
    /// A sequencer, to lie behind a lock, with the book that counts what comes into its log. Its log has to be genuine, within its capacity and as long
    /// as the book says (`IsLogBehind`).
    pub fn of(sequencer: Sequencer<'r>, count: Book<S>) -> LockedLog<'r, S>
        requires { IsLogBehind S.history S.machine S.start count.total sequencer }
        ensures { result ≡ sequencer.entry.list }
    {
        LockedLog { sequencer, count }
    }

    /// The sequencer. `home` has to hold all shares of the book, so its amount is how many requests and Ticks have come in since the sharing began.
    pub fn close(self, home: &mut Share<S>) -> Sequencer<'r>
        requires { home.old.parts ≡ S.parts }
        ensures behind { IsLogBehind S.history S.machine S.start home.old.amount result }
        ensures same { result.list ≡ self.entry }
    {
        let LockedLog {
            sequencer,
            mut count,
        } = self;
        count.audit(home);
        sequencer
    }

    // Appends a request or a Tick, and counts it with the share.
    fn take_in(
        &mut self,
        share: &mut Share<S>,
        message: Message,
        now: u64,
    ) -> Result<Slip<'r>, AppendFault>
        requires parts { 0 < share.old.parts }
        requires now { now ≤ 10 ^ 16 }
        requires may { MayStand S.machine self.old message }
        requires input { is_input message ≡ true }
        ensures ok { IfOk result (λ slip. (append_fault S.machine self.old message ≡ None) × (self.new ≡ self.old ++ entry_after now self.old message ∷ [])
            × (slip.row ≡ S.history) × (slip.list ≡ self.new)) }
        ensures err { OnErr result (self.new ≡ self.old) }
        ensures cause { IfErr result (λ fault. IfSome (cause_of fault) (λ cause. append_fault S.machine self.old message ≡ Some cause)) }
        ensures genuine { SequencerBehind S.machine self.new }
        ensures counted { OnOk result (share.new.amount ≡ share.old.amount + 1) }
        ensures uncounted { OnErr result (share.new.amount ≡ share.old.amount) }
        ensures parts { share.new.parts ≡ share.old.parts }
    {
        match self.sequencer.append(message, now) {
            Ok(slip) => {
                self.count.add(share, 1);
                Ok(slip)
            }
            Err(refusal) => Err(refusal.fault),
        }
    }

    /// Appends a client's request, counts it with the client's share, and gives its slip. An Err says why it is refused; then all is as before. `now`
    /// is the round's time, which the time of the entry doesn't hang on.
    pub fn append(
        &mut self,
        share: &mut Share<S>,
        request: Request,
        now: u64,
    ) -> Result<Slip<'r>, AppendFault>
        requires parts { 0 < share.old.parts }
        requires now { now ≤ 10 ^ 16 }
        ensures ok { IfOk result (λ slip. (append_fault S.machine self.old (RequestMessage request) ≡ None)
            × (self.new ≡ self.old ++ entry_after now self.old (RequestMessage request) ∷ []) × (slip.row ≡ S.history) × (slip.list ≡ self.new)) }
        ensures err { OnErr result (self.new ≡ self.old) }
        ensures cause { IfErr result (λ fault. IfSome (cause_of fault) (λ cause. append_fault S.machine self.old (RequestMessage request) ≡ Some cause)) }
        ensures genuine { SequencerBehind S.machine self.new }
        ensures counted { OnOk result (share.new.amount ≡ share.old.amount + 1) }
        ensures uncounted { OnErr result (share.new.amount ≡ share.old.amount) }
        ensures parts { share.new.parts ≡ share.old.parts }
    {
        self.take_in(share, Message::Request(request), now)
    }

    /// Appends a Tick of the time `now`, counts it with the share, and gives its slip. After want of memory all is as before.
    pub fn tick(&mut self, share: &mut Share<S>, now: u64) -> Result<Slip<'r>, AllocError>
        requires parts { 0 < share.old.parts }
        requires now { now ≤ 10 ^ 16 }
        ensures ok { IfOk result (λ slip. (self.new ≡ self.old ++ entry_after now self.old Tick ∷ []) × (slip.row ≡ S.history) × (slip.list ≡ self.new)) }
        ensures err { OnErr result (self.new ≡ self.old) }
        ensures counted { OnOk result (share.new.amount ≡ share.old.amount + 1) }
        ensures uncounted { OnErr result (share.new.amount ≡ share.old.amount) }
        ensures parts { share.new.parts ≡ share.old.parts }
    {
        match self.take_in(share, Message::Tick, now) {
            Ok(slip) => Ok(slip),
            Err(_) => Err(AllocError),
        }
    }

    /// Appends a response or a verdict, which isn't counted. One that stands in the log already, or comes too late, is dropped. After want of memory all
    /// is as before.
    pub fn answer(&mut self, message: Message) -> Result<(), AllocError>
        requires may { MayStand S.machine self.old message }
        requires answer { is_input message ≡ false }
        ensures begins { IsPrefix self.old self.new }
        ensures err { OnErr result (self.new ≡ self.old) }
    {
        // the time of what isn't a Tick comes from the entry before it
        match self.sequencer.append(message, 0) {
            Ok(_) => Ok(()),
            Err(AppendRefusal { fault, .. }) => match fault {
                AppendFault::Memory => Err(AllocError),
                AppendFault::Already { .. }
                | AppendFault::Unframed
                | AppendFault::LogFull { .. }
                | AppendFault::TooLate { .. } => Ok(()),
            },
        }
    }

    /// The slip of the entry at a place, and None exactly where the log doesn't reach so far.
    pub fn entry(&mut self, place: u64) -> Option<Slip<'r>>
        ensures same { self.new ≡ self.old }
        ensures some { IfSome result (λ slip. (place < length self.old) × (slip.row ≡ S.history) × (slip.list ≡ take (place + 1) self.old)
            × GenuineLog S.machine slip.list) }
        ensures none { IfNone result (length self.old ≤ place) }
    {
        self.sequencer.entry(place)
    }

    /// The slip of the last entry, and None of an empty log.
    pub fn last(&mut self) -> Option<Slip<'r>>
        ensures same { self.new ≡ self.old }
        ensures row { InRow S.history result }
        ensures list { read_to result ≡ self.old }
    {
        last_of(&mut self.sequencer)
    }

    /// Changes nothing. The prover learns from it that the entries that the slip ties begin the log.
    pub fn reaches_slip(&mut self, slip: &mut Slip<'r>)
        requires { slip.old.row ≡ S.history }
        ensures same { (self.new ≡ self.old) × (slip.new ≡ slip.old) }
        ensures begins { IsPrefix slip.old.list self.old }
    {
        self.sequencer.reaches(slip);
    }

    /// Changes nothing. The prover learns from it that what somebody has read, up to the slip `last`, begins the log, and that the log is genuine and
    /// within its capacity.
    pub fn reaches(&mut self, last: &mut Option<Slip<'r>>)
        requires { InRow S.history last.old }
        ensures same { (self.new ≡ self.old) × (last.new ≡ last.old) }
        ensures begins { IsPrefix (read_to last.old) self.old }
        ensures genuine { SequencerBehind S.machine self.old }
    {
        reached(&mut self.sequencer, last);
    }
}

/// The slip that ties the first `count` entries of a log, and None where `count` is 0.
pub fn slip_to<'r>(sequencer: &mut Sequencer<'r>, count: u64) -> Option<Slip<'r>>
    requires { count ≤ length sequencer.old.list }
    ensures same { sequencer.new ≡ sequencer.old }
    ensures row { InRow sequencer.old.row result }
    ensures list { read_to result ≡ take count sequencer.old.list }
{
    match count {
        0 => None,
        count => sequencer.entry(count - 1),
    }
}

/// The slip of the last entry of a log, and None of an empty one.
pub fn last_of<'r>(sequencer: &mut Sequencer<'r>) -> Option<Slip<'r>>
    ensures same { sequencer.new ≡ sequencer.old }
    ensures row { InRow sequencer.old.row result }
    ensures list { read_to result ≡ sequencer.old.list }
{
    let count = sequencer.len();
    slip_to(sequencer, count)
}

/// Changes nothing. The prover learns from it that what somebody has read, up to the slip `last`, begins the log.
pub fn reached<'r>(sequencer: &mut Sequencer<'r>, last: &mut Option<Slip<'r>>)
    requires { InRow sequencer.old.row last.old }
    ensures same { (sequencer.new ≡ sequencer.old) × (last.new ≡ last.old) }
    ensures begins { IsPrefix (read_to last.old) sequencer.old.list }
{
    if let Some(slip) = last {
        sequencer.reaches(slip);
    }
}

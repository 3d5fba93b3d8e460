//! The mediator as it lies behind its lock.
ghost use Rattle.std.specs.Prelude.{◌≡◌, ◌+◌, ◌∷◌, ℕ, List, length, IfOk, IfNone, IfSome, OnOk, OnErr};
ghost use Rattle.world_model.specs.Machine.{GenuineLog};
ghost use Rattle.world_model.specs.Fits.{IsDecision};
ghost use Rattle.mediator.specs.Order.{HasGiven, IsFirstDue, NothingIsDue};
ghost use Rattle.sync_shared.specs.Behind.{IsMediatorBehind};
ghost use Rattle.sync_shared.specs.Slips.{read_to, InRow, IsNextIn};

use crate::locked_log::LockedLog;
use crate::session::Session;
use crate::slips::{again, tie};
use canton_model::Verdict;
use log_row::Slip;
use mediator::Mediator;
use std::alloc::AllocError;
use std::marker::{Model, PhantomData};

/// The mediator, with the last slip that it has read. Contracts see the entries that it has read, and what it keeps of them.
#[derive(Drop)]
pub struct LockedMediator<'r, S: Session> {
    mediator: Mediator,
    last: Option<Slip<'r>>,
    of: PhantomData<S>,
}

impl<'r, S: Session> Model for LockedMediator<'r, S> {
    ghost use Rattle.sync_shared.specs.Behind.{IsMediatorBehind, Mediating};

    ghost Value = { Mediating };

    ghost use Rattle.sync_shared.specs.Slips.{read_to, InRow};

    ghost view = { λ m. record { list = read_to m.last; kept = m.mediator } };

    ghost invariant = { λ m. InRow S.history m.last × IsMediatorBehind S.machine (read_to m.last) m.mediator };
}

impl<'r, S: Session> LockedMediator<'r, S> {
    /// A mediator, to lie behind a lock, with the slip of the last entry that it has read, None where it has read none.
    pub fn of(mediator: Mediator, last: Option<Slip<'r>>) -> LockedMediator<'r, S>
        requires row { InRow S.history last }
        requires behind { IsMediatorBehind S.machine (read_to last) mediator }
        ensures { result.list ≡ read_to last.entry }
    {
        LockedMediator {
            mediator,
            last,
            of: PhantomData,
        }
    }

    /// The mediator, and the slip of the last entry that it has read, None where it has read none.
    pub fn into_parts(self) -> (Mediator, Option<Slip<'r>>)
        ensures row { InRow S.history result.1 }
        ensures same { read_to result.1 ≡ self.entry.list }
        ensures behind { IsMediatorBehind S.machine self.entry.list result.0 }
    {
        let LockedMediator {
            mediator,
            last,
            of: _,
        } = self;
        (mediator, last)
    }

    /// How many entries the mediator has read.
    pub fn cursor(&self) -> u64
        ensures { result ≡ length self.now.list }
    {
        self.mediator.cursor()
    }

    /// Reads the entry of the slip, which has to be that of the next place. After want of memory it wasn't read.
    pub fn read(&mut self, mut slip: Slip<'r>) -> Result<(), AllocError>
        requires row { slip.row ≡ S.history }
        requires next { length slip.list ≡ length self.old.list + 1 }
        requires genuine { GenuineLog S.machine slip.list }
        ensures ok { OnOk result (self.new.list ≡ slip.entry.list) }
        ensures err { OnErr result (self.new ≡ self.old) }
    {
        tie(&mut self.last, &mut slip);
        // the prover learns from this call that the place isn't too great
        let _place = slip.place();
        self.mediator.read(slip.entry())?;
        self.last = Some(slip);
        Ok(())
    }

    /// The slip of the entry that the mediator reads next, and None where it has read the log to its end.
    pub fn unread(&mut self, log: &mut LockedLog<'r, S>) -> Option<Slip<'r>>
        ensures same { (self.new ≡ self.old) × (log.new ≡ log.old) }
        ensures some { IfSome result (IsNextIn S.history S.machine self.old.list) }
    {
        log.entry(self.cursor())
    }

    /// The slip of the last entry that the mediator has read, None where it has read none.
    pub fn last(&mut self) -> Option<Slip<'r>>
        ensures same { self.new ≡ self.old }
        ensures row { InRow S.history result }
        ensures list { read_to result ≡ self.old.list }
    {
        again(&mut self.last)
    }

    /// The decision on the first request that is settled over what was read, and whose verdict neither was taken nor read; None where there is none. It
    /// counts as taken from then on, so over what was read each is taken once. After want of memory all is as before.
    pub fn take_verdict(&mut self) -> Result<Option<Verdict>, AllocError>
        ensures same { self.new.list ≡ self.old.list }
        ensures decision { IfOk result (λ o. IfSome o (IsDecision S.machine.params self.old.list)) }
        ensures first { IfOk result (λ o. IfSome o (λ v. (given : List ℕ) → HasGiven S.machine self.old.list given self.old.kept
            → IsFirstDue S.machine.params self.old.list given v × HasGiven S.machine self.old.list (v.request ∷ given) self.new.kept)) }
        ensures none { IfOk result (λ o. IfNone o ((given : List ℕ) → HasGiven S.machine self.old.list given self.old.kept
            → NothingIsDue S.machine.params self.old.list given × HasGiven S.machine self.old.list given self.new.kept)) }
        ensures err { OnErr result (self.new ≡ self.old) }
    {
        self.mediator.take_verdict()
    }
}

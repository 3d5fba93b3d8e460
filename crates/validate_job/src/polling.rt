//! A job as a future.
ghost use Rattle.std.specs.Prelude.{◌≡◌, ◌+◌, ◌<◌, OnErr, OnOk};
ghost use Rattle.futures.specs.Poll.{IfReady, OnPending};
ghost use Rattle.futures.specs.Task.{Covers, Keeps};
ghost use Rattle.validate_job.specs.Outcome.{Gives};

use crate::finished::Finished;
use crate::job::ValidateJob;
use futures::Future;
use futures::task::{Context, Poll};
use std::alloc::AllocError;

impl Future for ValidateJob<'_> {
    ghost use Rattle.std.specs.Prelude.{◌<◌};
    ghost use Rattle.validate_job.specs.Outcome.{Gives};

    type Output = Result<Finished, AllocError>;

    ghost can_poll = { λ j. 0 < j.left };

    ghost gives = { Gives };

    /// Checks the next view. While views remain it is pending, and has asked to be polled again.
    fn poll(&mut self, cx: &mut Context<'_>) -> Poll<Result<Finished, AllocError>>
        requires { 0 < self.old.left }
        ensures value { IfReady result (Gives self.old) }
        ensures again { OnPending result (0 < self.new.left) }
        ensures same { OnPending result ((x : _) → Gives self.new x → Gives self.old x) }
        ensures registered { OnPending result (Covers cx.new (λ s. ⊥)) }
        ensures kept { Keeps cx.old cx.new }
        ensures one_view { OnPending result (self.new.left + 1 ≡ self.old.left) }
        ensures given { self.new.given ≡ self.old.given }
        ensures last { IfReady result (λ r. OnOk r ((self.old.left ≡ 1) × (self.new.left ≡ 0))) }
        ensures err { IfReady result (λ r. OnErr r (self.new ≡ self.old)) }
    {
        match self.check_next() {
            Ok(None) => cx.yield_now(),
            Ok(Some(finished)) => Poll::Ready(Ok(finished)),
            Err(lack) => Poll::Ready(Err(lack)),
        }
    }
}

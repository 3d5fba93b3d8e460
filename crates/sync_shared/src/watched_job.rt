//! A job that a lane runs.
ghost use Rattle.std.specs.Prelude.{IfOk, IfSome};
ghost use Rattle.validate_job.specs.Outcome.{IsOutcome};
ghost use Rattle.sync_shared.specs.Lanes.{IsClaimed};

use crate::locked_node::LockedNode;
use crate::node_step::ClaimedJob;
use crate::session::Session;
use futures::Future;
use futures::executor::block_on;
use futures::task::{Context, Poll};
use lane_pool::Gate;
use std::alloc::{AllocError, AllocGlobal};
use std::random::RandomSource;
use std::sync::{Mutex, Wait};
use validate_job::Finished;

// A job whose participant is asked after each view whether the request is decided. It holds none once it has given its output.
struct WatchedJob<'a, 'r, S: Session, R: Wait, G: Gate, const I: u8> {
    rt: &'a R,
    lock: &'a Mutex<LockedNode<'r, S, I>>,
    gate: &'a G,
    claimed: Option<ClaimedJob<'r>>,
    // How many of its views are checked.
    view: u32,
}

impl<'a, 'r, S: Session, R: Wait, G: Gate, const I: u8> Drop for WatchedJob<'a, 'r, S, R, G, I> {
    fn drop(self) {
        let Self {
            rt: _,
            lock: _,
            gate: _,
            claimed: _,
            view: _,
        } = self;
    }
}

impl<'a, 'r, S: Session, R: Wait, G: Gate, const I: u8> Future for WatchedJob<'a, 'r, S, R, G, I> {
    ghost use Rattle.std.specs.Prelude.{IfOk, IfSome, IsSomeAnd};
    ghost use Rattle.validate_job.specs.Outcome.{IsOutcome};
    ghost use Rattle.sync_shared.specs.Lanes.{IsClaimed};

    // None where the job was cancelled.
    type Output = Result<Option<Finished>, AllocError>;

    ghost can_poll = { λ w. IsSomeAnd w.claimed (IsClaimed S.history S.machine S.bases I) };

    ghost gives = { λ w r. IfSome w.claimed (λ c. IfOk r (λ o. IfSome o (IsOutcome c.job.given))) };

    /// Passes the gate and checks a view outside every lock, and then asks under the participant's.
    fn poll(&mut self, cx: &mut Context<'_>) -> Poll<Result<Option<Finished>, AllocError>> {
        let Some(claimed) = self.claimed.take() else {
            unreachable!();
        };
        let ClaimedJob { mut job, mut known } = claimed;
        let place = job.place();
        self.gate.enter(place, self.view);
        let polled = job.poll(cx);
        let decided_at = self.lock.lock(self.rt).decided_at(&mut known, place);
        if decided_at.is_some() {
            let _ = job.cancel();
            return Poll::Ready(Ok(None));
        }
        match polled {
            Poll::Ready(Ok(finished)) => Poll::Ready(Ok(Some(finished))),
            Poll::Ready(Err(lack)) => Poll::Ready(Err(lack)),
            Poll::Pending => {
                self.view = self.view.saturating_add(1);
                self.claimed = Some(ClaimedJob { job, known });
                Poll::Pending
            }
        }
    }
}

/// Checks all views of the job that participant `I` has claimed, and gives the verdicts on them. The job is cancelled once its participant has read
/// that the request is decided: then the result is None, and nothing comes of the job but its claim. The gate is passed before each view. An Err is
/// want of memory, or that no executor for the check was to be had.
pub fn run_job<'r, S: Session, R: Wait + RandomSource + AllocGlobal, G: Gate, const I: u8>(
    rt: &R,
    lock: &Mutex<LockedNode<'r, S, I>>,
    claimed: ClaimedJob<'r>,
    gate: &G,
) -> Result<Option<Finished>, AllocError>
    requires { IsClaimed S.history S.machine S.bases I claimed }
    ensures { IfOk result (λ o. IfSome o (IsOutcome claimed.entry.job.given)) }
{
    let watched = WatchedJob {
        rt,
        lock,
        gate,
        claimed: Some(claimed),
        view: 0,
    };
    match block_on(rt, watched) {
        Ok(ran) => ran,
        // no executor was had, which takes memory and a number by chance
        Err(_) => Err(AllocError),
    }
}

//! What lanes do.
ghost use Rattle.std.specs.Prelude.{OnErr, OnOk};

use lane_pool::{Gate, Lane, Turn};
use once_cell::race::OnceBool;
use std::alloc::{AllocError, AllocGlobal};
use std::random::RandomSource;
use std::sync::Wait;
use std::thread;
use sync_shared::{Session, Shared};

/// The work of so many lanes: that of the participants and of the mediator. A turn goes on until it finds nothing more to do, and no less
/// long than until `ended` is set.
#[derive(Clone, Copy)]
pub struct LaneWork<'a, 'r, S: Session, R: Wait + Sync, G: Gate + Sync> {
    pub rt: &'a R,
    pub gate: &'a G,
    pub shared: &'a Shared<'r, S>,
    pub lanes: u32,
    pub ended: &'a OnceBool,
}

impl<'r, S: Session + Send + Sync, R: Wait + Sync + RandomSource + AllocGlobal, G: Gate + Sync> Lane
    for LaneWork<'_, 'r, S, R, G> {
    ghost may_fail = { λ _ _ _. Unit {0} };

    ghost was_taken = { λ _ _ _. Unit {0} };

    type Start = ();

    fn turn(&self, turn: Turn<()>) -> Result<(), AllocError>
        ensures failed { OnErr result (Unit {0}) }
        ensures taken { OnOk result (Unit {0}) }
    {
        if self.lanes == 0 {
            return Ok(());
        }
        for _ in 0..u64::MAX {
            let ended = self.ended.get().is_some();
            if self
                .shared
                .turn(self.rt, turn.lane(), self.lanes, self.gate)?
            {
                continue;
            }
            if ended {
                return Ok(());
            }
            thread::yield_now();
        }
        Ok(())
    }
}

//! Work that several lanes share.
ghost use Rattle.std.specs.Prelude.{ℕ, OnErr, OnOk};

use crate::turns::Turn;
use std::alloc::AllocError;

/// Work that several lanes share. An implementation may wait, and keeps what it allocates by.
pub trait Lane: Sync {
    // Holds of a lane, of its number and of a turn's number, where this turn may answer Err.
    ghost may_fail: { Self → ℕ → ℕ → Type 0 };

    // Holds of a lane, of its number and of a turn's number, where this turn has answered Ok.
    ghost was_taken: { Self → ℕ → ℕ → Type 0 };

    /// What a caller gives for the turns of lanes. Who runs lanes makes none, so with one of them each turn is taken at most once.
    type Start: Drop + Send;

    /// Takes the turn, which has its lane's number and its own. An Err is want of memory, and ends the turns of all lanes.
    fn turn(&self, turn: Turn<Self::Start>) -> Result<(), AllocError>
        ensures failed { OnErr result (may_fail self.now turn.lane turn.number) }
        ensures taken { OnOk result (was_taken self.now turn.lane turn.number) };
}

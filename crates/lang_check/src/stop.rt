//! Where a walk stops.
ghost use Rattle.std.specs.Prelude.{◌≡◌};
ghost use Rattle.lang_check.specs.declared.stop.Stop.TheVariants.{Memory};

use crate::check_fault::CheckFault;
use std::alloc::{AllocError, AllocFailed};

/// Where a walk stops: at a fault, or for want of memory.
#[derive(Drop)]
pub(crate) enum Stop {
    Fault(CheckFault),
    Memory,
}

impl From<AllocError> for Stop {
    ghost from_gives = { λ _ e. e ≡ Memory };

    fn from(_error: AllocError) -> Stop {
        Stop::Memory
    }
}

impl<T: Drop> From<AllocFailed<T>> for Stop {
    ghost from_gives = { λ _ e. e ≡ Memory };

    fn from(_error: AllocFailed<T>) -> Stop {
        Stop::Memory
    }
}

//! Why a JSON value is refused.
ghost use Rattle.std.specs.Prelude.{◌≡◌};
ghost use Rattle.json_walk.specs.declared.walk_fault.WalkFault.TheVariants.{Memory};

use ledger_terms::{Pointer, Text};
use std::alloc::{AllocError, AllocFailed};

/// The first fault of a walk through a JSON value, or want of memory. `path` is the place of the fault, as a JSON pointer from the whole value.
/// NotJson: the bytes are no JSON. Shape: a value has another form than it should, or a member is absent. NotInteger: a number isn't whole.
/// Unknown: `name` names nothing that is known. Limit: `which` is the number of the limit that is broken and `found` the count or number that
/// breaks it, 0 for a negative one. Repeated: something stands for the second time.
#[derive(Drop)]
pub enum WalkFault {
    NotJson,
    Shape {
        path: Pointer,
    },
    NotInteger {
        path: Pointer,
    },
    Unknown {
        path: Pointer,
        name: Text,
    },
    Limit {
        path: Pointer,
        which: u8,
        found: u64,
    },
    Repeated {
        path: Pointer,
    },
    Memory,
}

impl From<AllocError> for WalkFault {
    ghost from_gives = { λ _ e. e ≡ Memory };

    fn from(_error: AllocError) -> WalkFault {
        WalkFault::Memory
    }
}

impl<T: Drop> From<AllocFailed<T>> for WalkFault {
    ghost from_gives = { λ _ e. e ≡ Memory };

    fn from(_error: AllocFailed<T>) -> WalkFault {
        WalkFault::Memory
    }
}

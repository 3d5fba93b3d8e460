//! Why a transaction isn't split.
ghost use Rattle.std.specs.Prelude.{◌≡◌};

use ledger_terms::Path;
use std::alloc::AllocError;

/// Why a transaction isn't split into views.
#[derive(Drop)]
pub enum SplitFault {
    /// The action at this path has no roles.
    NoRoles { path: Path },
    Memory,
}

impl From<AllocError> for SplitFault {
    ghost use Rattle.view_split.specs.declared.split_fault.SplitFault.TheVariants.{Memory};

    ghost from_gives = { λ _ e. e ≡ Memory };

    fn from(_e: AllocError) -> SplitFault {
        SplitFault::Memory
    }
}

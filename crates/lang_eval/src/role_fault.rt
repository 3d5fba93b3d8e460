//! Why an action has no roles.
ghost use Rattle.std.specs.Prelude.{◌≡◌, ◌≢◌};

use crate::eval_fault::EvalFault;
use std::alloc::AllocError;

/// Why the roles of an action aren't given.
#[derive(Clone, Copy, PartialEq, Eq)]
pub enum RoleFault {
    /// The action has none.
    NoRoles,
    Memory,
}

impl From<AllocError> for RoleFault {
    ghost use Rattle.lang_eval.specs.declared.role_fault.RoleFault.TheVariants.{Memory};

    ghost from_gives = { λ _ e. e ≡ Memory };

    fn from(_e: AllocError) -> RoleFault {
        RoleFault::Memory
    }
}

/// Want of memory stays so, and any other fault of an evaluation is that there are no roles.
pub(crate) fn of_fault(fault: EvalFault) -> RoleFault
    ensures memory { fault ≡ EvalFault.Memory → result ≡ RoleFault.Memory }
    ensures none { fault ≢ EvalFault.Memory → result ≡ RoleFault.NoRoles }
{
    match fault {
        EvalFault::Memory => RoleFault::Memory,
        _ => RoleFault::NoRoles,
    }
}

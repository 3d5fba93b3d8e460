//! Why a submission isn't sent.
use interpret::CommandFault;
use ledger_terms::Name;
use std::alloc::AllocError;
use view_split::SplitFault;

/// Why a submission isn't sent.
#[derive(Drop)]
pub enum SubmitFault {
    /// The participant is paused.
    Paused,
    /// The participant doesn't confirm for a party that would act.
    NotHosted { party: Name },
    /// The commands, or the prepared tree, give no transaction.
    Command { fault: CommandFault },
    /// The transaction can't be split into views: an action has no roles, at the fault's path, or there is no action, and the path is the empty one.
    Split { fault: SplitFault },
    /// The participant's command id stands in the log already, at `place`.
    Duplicate { place: u64 },
    /// The log has `reserved` of its places reserved, and the request needs `need` more.
    LogFull { reserved: u64, need: u64 },
    /// No memory was found.
    Memory,
}

impl From<AllocError> for SubmitFault {
    ghost use Rattle.std.specs.Prelude.{◌≡◌};
    ghost use Rattle.prepare_request.specs.declared.submit_fault.SubmitFault.TheVariants.{Memory};

    ghost from_gives = { λ _ e. e ≡ Memory };

    fn from(_e: AllocError) -> SubmitFault {
        SubmitFault::Memory
    }
}

impl From<CommandFault> for SubmitFault {
    ghost use Rattle.std.specs.Prelude.{◌≡◌};
    ghost use Rattle.prepare_request.specs.Prepared.{of_command};

    ghost from_gives = { λ fault e. e ≡ of_command fault };

    fn from(fault: CommandFault) -> SubmitFault {
        match fault {
            CommandFault::Memory => SubmitFault::Memory,
            fault => SubmitFault::Command { fault },
        }
    }
}

impl From<SplitFault> for SubmitFault {
    ghost use Rattle.std.specs.Prelude.{◌≡◌};
    ghost use Rattle.prepare_request.specs.Prepared.{of_split};

    ghost from_gives = { λ fault e. e ≡ of_split fault };

    fn from(fault: SplitFault) -> SubmitFault {
        match fault {
            SplitFault::Memory => SubmitFault::Memory,
            fault => SubmitFault::Split { fault },
        }
    }
}

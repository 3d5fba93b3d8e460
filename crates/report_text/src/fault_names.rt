//! The words of faults. Want of memory has none, since no result of a run holds it.
ghost use Rattle.std.specs.Prelude.{◌≡◌};
ghost use Rattle.report_text.specs.FaultNames.{command_fault_name, split_fault_name};

use interpret::CommandFault;
use view_split::SplitFault;

/// The word that a report has for a fault of commands. Where an evaluation failed, it is the word for the evaluation's own fault. For want of memory it
/// is the empty text.
pub fn command_fault_name(fault: &CommandFault) -> &'static str
    ensures { result.now ≡ command_fault_name fault.now }
{
    match fault {
        CommandFault::UnknownTemplate { .. } => "UnknownTemplate",
        CommandFault::UnknownChoice { .. } => "UnknownChoice",
        CommandFault::BadArgs { .. } => "BadArgs",
        CommandFault::ContractUnknown { .. } => "ContractUnknown",
        CommandFault::Eval { fault, .. } => fault.as_str(),
        CommandFault::TooDeep { .. } => "TooDeep",
        CommandFault::TooMany { .. } => "TooMany",
        CommandFault::Unauthorised { .. } => "Unauthorised",
        CommandFault::TooBig { .. } => "TooBig",
        CommandFault::Memory => "",
    }
}

/// The word that a report has for a fault of splitting a transaction into views. For want of memory it is the empty text.
pub fn split_fault_name(fault: &SplitFault) -> &'static str
    ensures { result.now ≡ split_fault_name fault.now }
{
    match fault {
        SplitFault::NoRoles { .. } => "NoRoles",
        SplitFault::Memory => "",
    }
}

//! Why packages are refused.
use crate::check_kind::CheckKind;
use ledger_terms::Pointer;

/// The first fault of packages. `at` is the place of the smallest form that has it, as a JSON pointer from the list of
/// packages, and empty for want of memory.
#[derive(Drop)]
pub struct CheckFault {
    pub at: Pointer,
    pub kind: CheckKind,
}

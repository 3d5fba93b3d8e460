//! Why a script is refused.
ghost use Rattle.std.specs.Prelude.{◌≡◌, option_map};
ghost use Rattle.script_read.specs.declared.script_fault.ScriptFault.TheVariants.{Memory};
ghost use Rattle.script_read.specs.Faults.{fault_name, fault_path, script_fault};

use json_walk::WalkFault;
use lang_check::CheckFault;
use ledger_terms::{Pointer, Text};
use std::alloc::{AllocError, AllocFailed};

/// The first fault of a script, or want of memory. `path` is the place of the fault, as a JSON pointer from the script's root.
/// NotJson: the bytes are no JSON. Shape: a value has another form than it should, or a member is absent. NotInteger: a number isn't whole.
/// Unknown: `name` is that of no participant, party or package. Limit: `which` is the number of the limit that is broken and `found` the count or
/// number that breaks it, 0 for a negative one. Repeated: something stands for the second time. Package: the first fault that the check of the
/// packages finds, which has its own place in the list of packages; want of memory in that check is Memory.
#[derive(Drop)]
pub enum ScriptFault {
    NotJson,
    Shape {
        path: Pointer,
    },
    NotInteger {
        path: Pointer,
    },
    Unknown {
        path: Pointer,
        name: Text,
    },
    Package {
        fault: CheckFault,
    },
    Limit {
        path: Pointer,
        which: u8,
        found: u64,
    },
    Repeated {
        path: Pointer,
    },
    Memory,
}

impl ScriptFault {
    /// The word for the fault, as the program's line on standard error has it.
    pub fn name(&self) -> &'static str
        ensures { result.now ≡ fault_name self.now }
    {
        match self {
            ScriptFault::NotJson => "NotJson",
            ScriptFault::Shape { .. } => "Shape",
            ScriptFault::NotInteger { .. } => "NotInteger",
            ScriptFault::Unknown { .. } => "Unknown",
            ScriptFault::Package { .. } => "Package",
            ScriptFault::Limit { .. } => "Limit",
            ScriptFault::Repeated { .. } => "Repeated",
            ScriptFault::Memory => "Memory",
        }
    }

    /// The place of the fault in the script, as a JSON pointer; None for NotJson, Memory and Package, which says its place among the packages itself.
    pub fn path(&self) -> Option<&str>
        ensures { option_map (λ p. p.now) result ≡ fault_path self.now }
    {
        match self {
            ScriptFault::Shape { path } => Some(path.as_str()),
            ScriptFault::NotInteger { path } => Some(path.as_str()),
            ScriptFault::Unknown { path, .. } => Some(path.as_str()),
            ScriptFault::Limit { path, .. } => Some(path.as_str()),
            ScriptFault::Repeated { path } => Some(path.as_str()),
            ScriptFault::NotJson => None,
            ScriptFault::Package { .. } => None,
            ScriptFault::Memory => None,
        }
    }
}

impl From<WalkFault> for ScriptFault {
    ghost from_gives = { λ w e. e ≡ script_fault w };

    fn from(fault: WalkFault) -> ScriptFault {
        match fault {
            WalkFault::NotJson => ScriptFault::NotJson,
            WalkFault::Shape { path } => ScriptFault::Shape { path },
            WalkFault::NotInteger { path } => ScriptFault::NotInteger { path },
            WalkFault::Unknown { path, name } => ScriptFault::Unknown { path, name },
            WalkFault::Limit { path, which, found } => ScriptFault::Limit { path, which, found },
            WalkFault::Repeated { path } => ScriptFault::Repeated { path },
            WalkFault::Memory => ScriptFault::Memory,
        }
    }
}

impl From<AllocError> for ScriptFault {
    ghost from_gives = { λ _ e. e ≡ Memory };

    fn from(_error: AllocError) -> ScriptFault {
        ScriptFault::Memory
    }
}

impl<T: Drop> From<AllocFailed<T>> for ScriptFault {
    ghost from_gives = { λ _ e. e ≡ Memory };

    fn from(_error: AllocFailed<T>) -> ScriptFault {
        ScriptFault::Memory
    }
}

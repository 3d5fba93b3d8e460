//! Why an evaluation ends without a value.
ghost use Rattle.std.specs.Prelude.{◌≡◌};
ghost use Rattle.lang_eval.specs.FaultNames.{eval_fault_name};

use std::alloc::AllocError;
use std::fmt;

/// A fault of the contract language, or want of memory.
#[derive(Clone, Copy, PartialEq, Eq)]
pub enum EvalFault {
    /// A number leaves the 64-bit integers.
    Overflow,
    /// An assertion of a choice's body is false.
    Assert,
    /// The `ensure` of a template is false.
    Ensure,
    /// A contract has no signatory.
    NoSignatory,
    /// A text, an instance, arguments or a result is longer than its limit.
    TooLarge,
    Memory,
}

impl EvalFault {
    /// The fault's word, as reports spell it. Want of memory has the empty one, since no report tells of it.
    pub fn as_str(&self) -> &'static str
        ensures { result.now ≡ eval_fault_name self.now }
    {
        match self {
            EvalFault::Overflow => "Overflow",
            EvalFault::Assert => "Assert",
            EvalFault::Ensure => "Ensure",
            EvalFault::NoSignatory => "NoSignatory",
            EvalFault::TooLarge => "TooLarge",
            EvalFault::Memory => "",
        }
    }
}

impl fmt::Display for EvalFault {
    ghost use Rattle.std.specs.Prelude.{Some};
    ghost use Rattle.lang_eval.specs.FaultNames.{eval_fault_name};

    ghost output = { λ f. Some (eval_fault_name f) };

    fn fmt<W: fmt::Write>(&self, f: &mut fmt::Formatter<W>) -> fmt::Result {
        f.write_str(self.as_str())
    }
}

impl From<AllocError> for EvalFault {
    ghost use Rattle.lang_eval.specs.declared.eval_fault.EvalFault.TheVariants.{Memory};

    ghost from_gives = { λ _ e. e ≡ Memory };

    fn from(_e: AllocError) -> EvalFault {
        EvalFault::Memory
    }
}

//! Who answers for rules.

use ledger_terms::{Command, Known, Name};
use std::alloc::AllocError;

/// Who says what a rule does about a contract.
pub trait Answering: Drop {
    ghost use Rattle.std.specs.Prelude.{ℕ, List, Option, Result};
    ghost use Rattle.std.specs.declared.alloc.AllocError.{AllocError};
    ghost use Rattle.ledger_terms.specs.declared.command.Command.{Command};
    ghost use Rattle.ledger_terms.specs.declared.known.Known.{Known};

    // It may be asked about every rule and contract.
    ghost can_ask: { Self → Type 0 };

    // This is an answer that it may give for a rule's name and a contract.
    ghost may_answer: { Self → List ℕ → Known → Result (Option Command) AllocError → Type 0 };

    /// What the rule of this name does about an active contract: the command that it fires with, or None, by which it does nothing.
    fn answer(&self, rule: Name, known: &Known) -> Result<Option<Command>, AllocError>
        requires { can_ask self.now }
        ensures { may_answer self.now rule known.now result };
}

/// A closure that answers.
#[derive(Drop)]
pub struct Closure<F> {
    pub call: F,
}

impl<F: Fn(Name, &Known) -> Result<Option<Command>, AllocError>> Answering for Closure<F> {
    ghost use Rattle.trigger_rules.specs.Answers.{CanAsk, MayAnswer};

    ghost can_ask = { λ c. CanAsk (F.pre c.call) };

    ghost may_answer = { λ c. MayAnswer (F.post c.call) };

    fn answer(&self, rule: Name, known: &Known) -> Result<Option<Command>, AllocError> {
        (self.call)(rule, known)
    }
}

//! What says what a choice's body does next.
ghost use Rattle.ledger_terms.specs.Answers.{UnlessMemory};
ghost use Rattle.lang_eval.specs.Next.{next};

use lang_eval::{Checked, EvalFault, NativeList, next_by};
use ledger_model::{ChildResultList, ChoiceCall, Step};
use std::alloc::Global;

/// What says what a choice's body does next, as the language does. Walks over trees are generic in it, since natives are trait
/// objects, and no proof of a cycle of calls can name one.
pub(crate) trait Stepping {
    /// What the body of the call's choice does after `so_far`.
    fn step_after(
        &self,
        alloc: Global,
        checked: &Checked,
        call: &ChoiceCall,
        so_far: &ChildResultList,
    ) -> Result<Step, EvalFault>
        ensures { UnlessMemory EvalFault.Memory result (next checked.now call.now so_far.now) };
}

impl Stepping for NativeList {
    fn step_after(
        &self,
        alloc: Global,
        checked: &Checked,
        call: &ChoiceCall,
        so_far: &ChildResultList,
    ) -> Result<Step, EvalFault> {
        next_by(alloc, self, checked, call, so_far)
    }
}

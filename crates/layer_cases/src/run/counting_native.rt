//! A native that counts how often it is asked.
use lang_eval::{Checked, EvalFault, Native, next_of_choice, note_template_name};
use ledger_model::{ChildResultList, ChoiceCall, Step};
use ledger_terms::{Choice, TemplateName};
use std::alloc::Global;
use std::sync::Arc;
use std::sync::atomic::{AtomicU64, Ordering};

/// A native of the template of notes, which answers what its own text says and counts how often it is asked.
#[derive(Drop)]
pub(crate) struct CountingNative {
    pub(crate) body: Choice,
    pub(crate) asked: Arc<AtomicU64, Global>,
}

impl Native for CountingNative {
    ghost use Rattle.lang_eval.specs.Builtin.{note_template_name};

    ghost of_template = { λ n. note_template_name };

    ghost of_choice = { λ n. n.body };

    fn template(&self) -> TemplateName {
        note_template_name()
    }

    fn body(&self) -> &Choice {
        &self.body
    }

    fn next(
        &self,
        checked: &Checked,
        call: &ChoiceCall,
        so_far: &ChildResultList,
    ) -> Result<Step, EvalFault> {
        self.asked.fetch_add(1, Ordering::SeqCst);
        let alloc = *so_far.allocator();
        match checked.template(note_template_name()) {
            Some(template) => next_of_choice(
                alloc,
                checked,
                template,
                &self.body,
                call,
                so_far.as_slice(),
            ),
            None => Err(EvalFault::Assert),
        }
    }
}

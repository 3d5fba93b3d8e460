//! The choice Flash of Note.Note as a native.
ghost use Rattle.std.specs.Prelude.{◌≡◌};

use crate::flash::next;
use lang_eval::{Checked, EvalFault, Native, flash_choice, note_template_name};
use ledger_model::{ChildResultList, ChoiceCall, Step};
use ledger_terms::{Choice, TemplateName};
use std::alloc::{AllocError, Global};
use std::marker::Model;

/// The choice Flash of `Note.Note`. Contracts see nothing of it, since each is the same as any other.
#[derive(Drop)]
pub struct FlashNative {
    alloc: Global,
    body: Choice,
}

impl Model for FlashNative {
    ghost use Rattle.std.specs.Prelude.{◌≡◌, ⊤};
    ghost use Rattle.lang_eval.specs.Builtin.{flash_form};

    ghost Value = { ⊤ };

    ghost view = { λ n. tt };

    ghost invariant = { λ n. n.body ≡ flash_form };
}

impl FlashNative {
    /// The native, with the text of Flash in the contract language, in place of which it is asked. It keeps the allocator for its answers. An Err is
    /// want of memory.
    pub fn new(alloc: Global) -> Result<FlashNative, AllocError> {
        let body = flash_choice(alloc)?;
        Ok(FlashNative { alloc, body })
    }
}

impl Native for FlashNative {
    ghost use Rattle.lang_eval.specs.Builtin.{flash_form, note_template_name};

    ghost of_template = { λ n. note_template_name };

    ghost of_choice = { λ n. flash_form };

    fn template(&self) -> TemplateName {
        note_template_name()
    }

    fn body(&self) -> &Choice {
        &self.body
    }

    fn next(
        &self,
        checked: &Checked,
        call: &ChoiceCall,
        so_far: &ChildResultList,
    ) -> Result<Step, EvalFault> {
        next(self.alloc, checked, call, so_far.as_slice())
    }
}

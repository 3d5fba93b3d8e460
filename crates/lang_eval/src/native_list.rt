//! The choices that are asked in place of the language.
ghost use Rattle.std.specs.Prelude.{◌≡◌, IsTrue, IfSome, Some};
ghost use Rattle.ledger_terms.specs.Answers.{UnlessMemory};
ghost use Rattle.lang_eval.specs.Found.{template_in};
ghost use Rattle.lang_eval.specs.Next.{next, next_in};

use crate::body::next_step;
use crate::checked::Checked;
use crate::eval_fault::EvalFault;
use crate::native::Native;
use crate::same::{same_choices, same_templates};
use ledger_model::{ChildResultList, ChoiceCall, Step};
use ledger_terms::{Choice, TemplateName};
use std::alloc::{AllocError, Global};
use std::boxed::Box;
use std::marker::Model;

/// Natives, of which the first of a choice is asked. Contracts see nothing of them, since they answer what the language does.
#[derive(Drop)]
pub struct NativeList {
    items: Vec<Box<dyn Native + Send + Sync>>,
}

impl Model for NativeList {
    ghost use Rattle.std.specs.Prelude.{⊤};

    ghost Value = { ⊤ };

    ghost view = { λ l. tt };
}

impl NativeList {
    /// A list of no natives: each choice does then what its text in the contract language says.
    pub fn new(alloc: Global) -> NativeList {
        NativeList {
            items: Vec::new(alloc),
        }
    }

    /// Puts a native at the end of the list. After want of memory the list is as it was.
    pub fn push(&mut self, native: Box<dyn Native + Send + Sync>) -> Result<(), AllocError> {
        self.items.push(native)?;
        Ok(())
    }

    /// The first native of this choice.
    fn find(
        &self,
        template: &TemplateName,
        choice: &Choice,
    ) -> Option<&Box<dyn Native + Send + Sync>>
        ensures its_template { IfSome result (λ n. of_template n.now ≡ template.now) }
        ensures its_choice { IfSome result (λ n. of_choice n.now ≡ choice.now) }
    {
        for native in &self.items {
            if is_of(native, template, choice) {
                return Some(native);
            }
        }
        None
    }
}

/// Whether a native is of this choice.
fn is_of(native: &Box<dyn Native + Send + Sync>, template: &TemplateName, choice: &Choice) -> bool
    ensures its_template { IsTrue result → of_template native.now ≡ template.now }
    ensures its_choice { IsTrue result → of_choice native.now ≡ choice.now }
{
    same_templates(&native.template(), template) && same_choices(native.body(), choice)
}

/// What a native answers for a call, after the children so far.
fn asked(
    native: &Box<dyn Native + Send + Sync>,
    checked: &Checked,
    call: &ChoiceCall,
    so_far: &ChildResultList,
) -> Result<Step, EvalFault>
    ensures { UnlessMemory EvalFault.Memory result
        (next_in (template_in (of_template native.now) checked.now) (Some (of_choice native.now)) checked.now call.now so_far.now) }
{
    native.next(checked, call, so_far)
}

/// What the body of the call's choice does next after `so_far`, the results of its children in order; the answer is that of `next_step`. It is asked of
/// the first native with the template and the text of the call's choice; where there is none, the text is evaluated. An Err is the first fault, Assert
/// where the choice isn't there, or want of memory.
#[tactic(auto, using(crate::proofs::Natives::native_is))]
pub fn next_by(
    alloc: Global,
    natives: &NativeList,
    checked: &Checked,
    call: &ChoiceCall,
    so_far: &ChildResultList,
) -> Result<Step, EvalFault>
    ensures { UnlessMemory EvalFault.Memory result (next checked.now call.now so_far.now) }
{
    let template = &call.instance.template;
    if let Some(choice) = checked.choice(*template, call.choice) {
        if let Some(native) = natives.find(template, choice) {
            return asked(native, checked, call, so_far);
        }
    }
    next_step(alloc, checked, call, so_far)
}

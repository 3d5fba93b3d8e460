//! Choices that are written in Rattle.
ghost use Rattle.std.specs.Prelude.{◌≡◌, Some};
ghost use Rattle.ledger_terms.specs.Answers.{UnlessMemory};
ghost use Rattle.lang_eval.specs.Found.{template_in};
ghost use Rattle.lang_eval.specs.Next.{next_in};

use crate::checked::Checked;
use crate::eval_fault::EvalFault;
use ledger_model::{ChildResultList, ChoiceCall, Step};
use ledger_terms::{Choice, TemplateName};

/// A choice of a template that is written in Rattle beside its text in the contract language, and answers what that text
/// says. It keeps what it needs for memory.
pub trait Native: Drop {
    ghost use Rattle.ledger_terms.specs.declared.template_name.TemplateName.{TemplateName};
    ghost use Rattle.ledger_terms.specs.Packages.{ChoiceForm};

    ghost of_template: { Self → TemplateName };

    ghost of_choice: { Self → ChoiceForm };

    /// The template that has the choice.
    fn template(&self) -> TemplateName
        ensures { result ≡ of_template self.now };

    /// The choice in the contract language.
    fn body(&self) -> &Choice
        ensures { result.now ≡ of_choice self.now };

    /// What the choice does after `so_far`, where the template has it. The names and the order of the template's fields, and of
    /// those that a Fetch binds, are told by the packages.
    fn next(
        &self,
        checked: &Checked,
        call: &ChoiceCall,
        so_far: &ChildResultList,
    ) -> Result<Step, EvalFault>
        ensures { UnlessMemory EvalFault.Memory result
            (next_in (template_in (of_template self.now) checked.now) (Some (of_choice self.now)) checked.now call.now so_far.now) };
}

//! Notes that flash.
ghost use Rattle.std.specs.Prelude.{◌≡◌, IfOk, IfSome, codes, option_copied};
ghost use Rattle.trigger_rules.specs.Answers.{IsExerciseOf};
ghost use Rattle.note_rule.specs.Go.{flash_on_go, is_go, says_go};

use lang_eval::note_template_name;
use ledger_terms::{ArgList, Command, ContractRef, Instance, Known, Name, Value};
use std::alloc::{AllocError, Global};

fn flash_name() -> Name
    ensures { result ≡ codes "Flash" }
{
    Name::read("Flash").unwrap()
}

fn says_go(text: Option<&Value>) -> bool
    ensures { result ≡ says_go (option_copied text.entry) }
{
    match text {
        Some(Value::Text(text)) => text.as_str() == "go",
        _ => false,
    }
}

// A note whose text is `go`.
fn is_go(instance: &Instance) -> bool
    ensures { result ≡ is_go instance.now }
{
    instance.template == note_template_name() && says_go(instance.fields.get(2))
}

/// What each rule of the program answers about a known contract: for a note whose text is `go` the command that exercises Flash on it, and None, by
/// which nothing is done, for any other. An Err is want of memory.
pub fn flash_on_go(alloc: Global, known: &Known) -> Result<Option<Command>, AllocError>
    ensures answer { IfOk result (λ answer. answer ≡ flash_on_go known.now) }
    ensures exercise { IfOk result (λ answer. IfSome answer (IsExerciseOf known.now)) }
{
    if !is_go(&known.instance) {
        return Ok(None);
    }
    Ok(Some(Command::Exercise {
        template: known.instance.template,
        contract: ContractRef::Id(known.id),
        choice: flash_name(),
        args: ArgList::new(alloc),
    }))
}

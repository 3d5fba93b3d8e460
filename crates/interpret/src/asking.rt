//! What asks for actions one after another.
use ledger_model::ChoiceCall;
use ledger_terms::CommandList;

/// The body of a call's choice, or commands.
#[derive(Clone, Copy)]
pub(crate) enum Asking<'a> {
    Body(&'a ChoiceCall),
    Commands(&'a CommandList),
}

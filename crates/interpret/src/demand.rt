//! Actions that are asked for.
use ledger_terms::{Hash, Name, TemplateName, ValueList};

/// An action that a command or the body of a choice asks for.
#[derive(Drop)]
pub enum Demand {
    Create {
        template: TemplateName,
        fields: ValueList,
    },
    Exercise {
        template: TemplateName,
        id: Hash,
        choice: Name,
        args: ValueList,
    },
    Fetch {
        template: TemplateName,
        id: Hash,
    },
}

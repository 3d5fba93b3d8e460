//! Prepared trees.

use crate::arg::{Arg, ArgList};
use crate::input::Input;
use crate::name::Name;
use crate::party_set::PartySet;
use crate::template_name::TemplateName;
use crate::tree::{Branches, Tree};

/// An action as it is handed in, without its consequences.
#[derive(Drop)]
pub enum DraftAction {
    Create {
        template: TemplateName,
        fields: ArgList,
    },
    Exercise {
        contract: Input,
        choice: Name,
        args: ArgList,
        actors: PartySet,
        consuming: bool,
        result: Arg,
    },
    Fetch {
        contract: Input,
        actors: PartySet,
    },
}

/// An action as it is handed in, with its consequences. A Create and a Fetch that are read from a script have none.
pub type Draft = Tree<DraftAction>;

/// Trees as they are handed in.
pub type DraftList = Branches<DraftAction>;

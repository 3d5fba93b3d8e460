//! What a submission is of.

use crate::command::CommandList;
use crate::draft_action::DraftList;
use crate::seed_of::SeedOf;

/// Commands, or a prepared tree.
#[derive(Drop)]
pub enum What {
    Commands(CommandList),
    Prepared {
        seed_of: Option<SeedOf>,
        roots: DraftList,
    },
}

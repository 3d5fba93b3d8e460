//! Informees and confirmers of a view.
use ledger_terms::{ListOf, PartySet, Path};

/// What the mediator reads of the view at a path.
#[derive(Drop)]
pub struct ViewRoles {
    pub path: Path,
    pub informees: PartySet,
    pub confirmers: PartySet,
}

/// Views with their informees and confirmers.
pub type ViewRolesList = ListOf<ViewRoles>;

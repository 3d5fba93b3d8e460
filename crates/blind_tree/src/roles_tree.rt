//! What the mediator reads of a transaction.
use crate::view_roles::ViewRolesList;
use ledger_terms::Name;

/// What the mediator reads in a transaction's tree (Canton protocol: informee tree): the sender, and the informees and
/// confirmers of every view, each view before those below it.
#[derive(Drop)]
pub struct RolesTree {
    pub sender: Name,
    pub views: ViewRolesList,
}

//! Views.

use crate::core_node::CoreChildList;
use ledger_terms::{Act, Branches, PartySet, Tree};

/// A part of a transaction that the same participants see (Canton protocol: transaction views), without the views below it.
/// Its core is its first action with what stands below that, and the holes in pre-order are the views below in order.
/// `informees` are those of the first action, `confirmers` the signatories and actors over the core.
#[derive(Drop)]
pub struct SplitView {
    pub informees: PartySet,
    pub confirmers: PartySet,
    pub first: Act,
    pub below: CoreChildList,
}

/// A view with those below it.
pub type View = Tree<SplitView>;

/// Views.
pub type ViewList = Branches<SplitView>;

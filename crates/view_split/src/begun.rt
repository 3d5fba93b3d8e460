//! Views in the making.
use crate::split_view::ViewList;
use ledger_terms::PartySet;

/// A view whose core is being walked: the confirmers and the views below so far.
#[derive(Drop)]
pub struct Begun {
    pub informees: PartySet,
    pub confirmers: PartySet,
    pub subviews: ViewList,
}

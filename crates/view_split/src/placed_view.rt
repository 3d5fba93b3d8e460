//! Views with their paths.
use crate::split_view::View;
use ledger_terms::{ListOf, Path};

/// A view with its path in the tree of all views of its transaction.
#[derive(Drop)]
pub struct PlacedView {
    pub path: Path,
    pub view: View,
}

/// Views with their paths.
pub type PlacedViewList = ListOf<PlacedView>;

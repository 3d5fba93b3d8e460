//! Views with their leaves and hashes.
use crate::kept_leaf::KeptLeaf;
use ledger_terms::{Branches, Hash, PartySet, Tree};

/// A view's informees, its leaves and its hash, without the views below it.
#[derive(Drop)]
pub struct KeptView {
    pub informees: PartySet,
    pub informees_leaf: KeptLeaf,
    pub contents_leaf: KeptLeaf,
    pub hash: Hash,
}

/// A view with those below it.
pub type KeptNode = Tree<KeptView>;

/// Views with those below them.
pub type KeptList = Branches<KeptView>;

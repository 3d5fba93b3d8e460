//! A transaction's tree with every hash, made once, from which the trees of all recipients are cut.
use crate::kept_leaf::KeptLeaf;
use crate::kept_view::KeptList;

/// The leaves of a transaction and its views, with their hashes.
#[derive(Drop)]
pub struct KeptTree {
    pub common: KeptLeaf,
    pub requesters: KeptLeaf,
    pub views: KeptList,
}

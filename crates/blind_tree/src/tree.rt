//! Trees of transactions.
use crate::leaf::Leaf;
use crate::vertex::VertexList;
use ledger_terms::ListOf;

/// The Merkle tree of a transaction as one recipient gets it (Canton protocol: transaction trees). `common` has sender and
/// ledger time, `requesters` who requests, and `views` a vertex for each root view.
#[derive(Drop)]
pub struct Tree {
    pub common: Leaf,
    pub requesters: Leaf,
    pub views: VertexList,
}

/// Trees.
pub type TreeList = ListOf<Tree>;

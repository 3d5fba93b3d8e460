//! What is opened of a request, for all who look at it.
ghost use Rattle.std.specs.Prelude.{◌≡◌, IfOk, IfErr};
ghost use Rattle.std.specs.Arc.{arc_value};

use std::alloc::{AllocError, Global};
use std::marker::Model;
use std::sync::Arc;
use view_split::OpenedTree;

/// A tree that stands once and is looked at from several places, as by a check that outlives the look into an inbox.
#[derive(Drop)]
pub struct SharedTree {
    tree: Arc<OpenedTree>,
}

impl Model for SharedTree {
    ghost use Rattle.std.specs.Arc.{arc_value};
    ghost use Rattle.view_split.specs.declared.opened_tree.OpenedTree.{OpenedTree};
    ghost use Rattle.ledger_terms.specs.Forest.{coded_forest};
    ghost use Rattle.view_split.specs.Holed.{coded_holed};
    ghost use Rattle.std.specs.Coded.{codes};

    ghost Value = { OpenedTree };

    ghost coded = { Prim.hlevel (codes, coded_forest, coded_holed) };

    ghost view = { λ s. arc_value s.tree };
}

impl SharedTree {
    /// Puts a tree into memory of its own, which `shared` then shares.
    pub fn new(alloc: Global, tree: OpenedTree) -> Result<SharedTree, AllocError>
        ensures { IfOk result (λ shared. shared ≡ tree) }
    {
        let tree = Arc::new(alloc, tree)?;
        Ok(SharedTree { tree })
    }

    /// The tree, to look at.
    pub fn opened(&self) -> &OpenedTree
        ensures { result.now ≡ self.now }
    {
        &*self.tree
    }

    /// The same tree once more, for somebody else who looks at it, without a copy. An error says that there is no room to count one more.
    pub fn shared(&self) -> Result<SharedTree, AllocError>
        ensures { IfOk result (λ shared. shared ≡ self.now) }
    {
        let tree = Arc::try_clone(&self.tree)?;
        Ok(SharedTree { tree })
    }

    /// The tree itself where nobody else looks at it any more; else the shared tree comes back as the Err.
    pub fn into_opened(self) -> Result<OpenedTree, SharedTree>
        ensures ok { IfOk result (λ tree. tree ≡ self) }
        ensures err { IfErr result (λ shared. shared ≡ self) }
    {
        let SharedTree { tree } = self;
        match Arc::try_unwrap(tree) {
            Ok(opened) => Ok(opened),
            Err(tree) => Err(SharedTree { tree }),
        }
    }
}

//! What a participant knows at its clean place.
ghost use Rattle.std.specs.Prelude.{◌≡◌, IfOk};
ghost use Rattle.node_core.specs.Views.{base_if, view_of};

use crate::node::Node;
use ledger_model::CommitList;
use ledger_terms::{ActiveRowList, ListOf, U64List};
use std::alloc::{AllocError, Global};

/// What a participant knows at its clean place: the parts that are opened to it of the commits before it, those without an
/// action left out, which requests are withheld from it, and the active contracts in order of creation. Of one that restarted no
/// commit and no request is told that stands before its base.
#[derive(Drop)]
pub struct NodeView {
    pub clean: u64,
    /// The time of the entry before the clean place, in microseconds, or 0.
    pub clean_time: u64,
    /// Its base, where it restarted.
    pub pruned: Option<u64>,
    /// The places of the approved requests of which it sees a view and has no complete envelope.
    pub withheld: U64List,
    pub commits: CommitList,
    pub active: ActiveRowList,
}

/// The views of the participants, in order of the topology.
pub type NodeViewList = ListOf<NodeView>;

/// The active contracts of each participant, in order of the topology.
pub type ActiveRowLists = ListOf<ActiveRowList>;

// The base as it is reported: only of a participant that restarted.
fn base_if(restarted: bool, base: u64) -> Option<u64>
    ensures { result ≡ base_if restarted base }
{
    restarted.then_some(base)
}

impl NodeView {
    /// What is reported of a participant over what it has read, with its base where it `restarted`. Goes through the requests below the clean place.
    pub fn of(alloc: Global, node: &Node<'_>, restarted: bool) -> Result<NodeView, AllocError>
        ensures { IfOk result (λ view. view ≡ view_of restarted node.now) }
    {
        Ok(NodeView {
            clean: node.clean(),
            clean_time: node.clean_time(),
            pruned: base_if(restarted, node.base()),
            withheld: node.withheld()?,
            commits: node.applied(alloc)?,
            active: node.active(alloc)?,
        })
    }

    /// What is reported of a participant that is wanted no more, with its base where it `restarted`. The opened actions are moved out of it and not copied.
    pub fn taken(alloc: Global, node: Node<'_>, restarted: bool) -> Result<NodeView, AllocError>
        ensures { IfOk result (λ view. view ≡ view_of restarted node.entry) }
    {
        let clean = node.clean();
        let clean_time = node.clean_time();
        let pruned = base_if(restarted, node.base());
        let withheld = node.withheld()?;
        let active = node.active(alloc)?;
        let commits = node.into_applied()?;
        Ok(NodeView {
            clean,
            clean_time,
            pruned,
            withheld,
            commits,
            active,
        })
    }
}

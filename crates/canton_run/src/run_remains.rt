//! What a run leaves beside what it tells.
use confirm_reply::Setup;
use log_row::LogRow;
use node_core::{NodeRemains, NodeViewList};
use script_read::RoundList;

/// What a run was made of: where its log lay, what the participants know or kept, and the script. Its many pieces take long to be given
/// back one by one, so a program that ends forgets it.
#[derive(Drop)]
pub struct RunRemains {
    row: LogRow,
    views: NodeViewList,
    nodes: Vec<NodeRemains>,
    setup: Setup,
    rounds: RoundList,
}

impl RunRemains {
    /// The remains of a run, put together: where its log lay, what its participants know or, where that wasn't asked, what they kept, and the script's
    /// setup and rounds.
    pub fn new(
        row: LogRow,
        views: NodeViewList,
        nodes: Vec<NodeRemains>,
        setup: Setup,
        rounds: RoundList,
    ) -> RunRemains {
        RunRemains {
            row,
            views,
            nodes,
            setup,
            rounds,
        }
    }
}

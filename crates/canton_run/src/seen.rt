//! What rules see of the participants of a synchroniser.
ghost use Rattle.std.specs.Prelude.{◌≡◌, IfOk, option_copied};
ghost use Rattle.canton_run.specs.Seen.{active_if};

use ledger_terms::{ActiveRowList, ParticipantId};
use node_core::Node;
use std::alloc::{AllocError, Global};
use trigger_loop::Participants;
use world_play::NodeList;

/// The participants of a synchroniser, as rules see them: of each, what is active at its clean place.
#[derive(Drop)]
pub struct SeenNodes<'n, 'r> {
    pub nodes: &'n NodeList<'r>,
}

fn active_if(alloc: Global, node: Option<&Node<'_>>) -> Result<ActiveRowList, AllocError>
    ensures { IfOk result (λ rows. rows ≡ active_if (option_copied node.entry)) }
{
    match node {
        Some(node) => node.active(alloc),
        None => Ok(ActiveRowList::new(alloc)),
    }
}

impl Participants for SeenNodes<'_, '_> {
    ghost use Rattle.canton_run.specs.Seen.{rows_at};

    ghost rows = { λ seen. rows_at seen.nodes.now.items };

    fn active(
        &self,
        alloc: Global,
        participant: ParticipantId,
    ) -> Result<ActiveRowList, AllocError> {
        active_if(alloc, self.nodes.as_slice().get(participant.0 as usize))
    }
}

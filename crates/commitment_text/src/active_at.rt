//! Active contracts at places.
ghost use Rattle.std.specs.Prelude.{◌≡◌, IfSome, OnOk};
ghost use Rattle.node_core.specs.Participant.{Participant};
ghost use Rattle.commitment_text.specs.Asked.{AreActiveAt};
ghost use Rattle.commitment_text.specs.Knowledge.{knowledge_of};

use ledger_terms::ActiveRowList;
use node_core::Node;
use std::alloc::{AllocError, Global};

/// The active contracts of a participant at a place.
#[derive(Drop)]
pub(crate) struct ActiveAt {
    pub place: u64,
    pub rows: ActiveRowList,
}

/// The active contracts at a place, where the participant was asked for them, and none where it wasn't.
pub(crate) fn asked_at(asked: &[ActiveAt], place: u64) -> Option<&ActiveRowList>
    ensures { (node : Participant) → AreActiveAt node asked.now → IfSome result (λ rows. rows.now ≡ (knowledge_of node).active_at place) }
{
    for one in asked {
        if one.place == place {
            return Some(&one.rows);
        }
    }
    None
}

/// Asks a participant for its active contracts at a place and puts them behind those in `asked`. Where they are there already it does nothing.
pub(crate) fn ask(
    alloc: Global,
    node: &Node<'_>,
    place: u64,
    asked: &mut Vec<ActiveAt>,
) -> Result<(), AllocError>
    ensures { OnOk result (AreActiveAt node.now asked.old.items → AreActiveAt node.now asked.new.items) }
{
    if asked_at(asked.as_slice(), place).is_some() {
        return Ok(());
    }
    let rows = node.active_at(alloc, place)?;
    asked.push(ActiveAt { place, rows })?;
    Ok(())
}

//! What the participants know.
ghost use Rattle.std.specs.Prelude.{◌≡◌, List, IfOk, map};
ghost use Rattle.node_core.specs.Views.{actives_in};
ghost use Rattle.world_model.specs.Places.{has_place};
ghost use Rattle.canton_run.specs.Actives.{own_active};
ghost use Rattle.canton_run.specs.Restarts.{is_restarted, view_in};
ghost use Rattle.script_read.specs.declared.round.Round.{Round as ScriptRound};

use ledger_terms::{ActiveRowList, ParticipantId};
use node_core::{ActiveRowLists, Node, NodeRemains, NodeView, NodeViewList};
use script_read::{Round, RoundList};
use std::alloc::{AllocError, Global};
use world_play::is_among;

// Whether a round restarts the participant.
fn restarts(round: &Round, participant: ParticipantId) -> bool
    ensures { result ≡ has_place round.now.restarts participant }
{
    is_among(round.restarts.as_slice(), participant.0 as usize)
}

// Whether one of the rounds restarts the participant.
fn is_restarted(rounds: &[Round], participant: ParticipantId) -> bool
    ensures { result ≡ is_restarted rounds.now participant }
{
    rounds.iter().any(|round| restarts(round, participant))
}

// What a participant knows once these rounds were played.
fn view_in(alloc: Global, rounds: &RoundList, node: Node<'_>) -> Result<NodeView, AllocError>
    ensures { IfOk result (λ view. view ≡ view_in rounds.now node.entry) }
{
    let restarted = is_restarted(rounds.as_slice(), node.me());
    NodeView::taken(alloc, node, restarted)
}

/// What each of the participants, which are used up, knows at its clean place once these rounds were played, in their order. The rounds tell which of
/// them restarted, and so are told with their base. An Err is want of memory.
pub fn views_of(
    alloc: Global,
    rounds: &RoundList,
    nodes: Vec<Node<'_>>,
) -> Result<NodeViewList, AllocError>
    ensures { IfOk result (λ views. views ≡ map (view_in rounds.now) nodes.entry.items) }
{
    let mut views = NodeViewList::new(alloc);
    'nodes: for node in nodes {
        views.push(view_in(alloc, rounds, node)?)?;
    }
    Ok(views)
}

fn active_of(alloc: Global, node: &Node<'_>) -> Result<ActiveRowList, AllocError>
    ensures { IfOk result (λ active. active ≡ own_active node.now) }
{
    node.active(alloc)
}

fn each_active(alloc: Global, nodes: &[Node<'_>]) -> Result<ActiveRowLists, AllocError>
    ensures { IfOk result (λ actives. actives ≡ map own_active nodes.now) }
{
    let mut actives = ActiveRowLists::new(alloc);
    for node in nodes {
        actives.push(active_of(alloc, node)?)?;
    }
    Ok(actives)
}

/// The active contracts of each participant at its clean place, in the order of the participants, as a summary has them. An Err is want of memory.
#[tactic(auto, using(crate::proofs::Actives::actives_are))]
pub fn actives_of(alloc: Global, nodes: &[Node<'_>]) -> Result<ActiveRowLists, AllocError>
    ensures { (rounds : List ScriptRound) → IfOk result (λ actives. actives ≡ actives_in (map (view_in rounds) nodes.now)) }
{
    each_active(alloc, nodes)
}

/// What is left of each participant once nobody asks it any more, in their order. A program that ends forgets that at once, where giving it back piece
/// by piece would take long. An Err is want of memory for the list.
pub fn remains_of(alloc: Global, nodes: Vec<Node<'_>>) -> Result<Vec<NodeRemains>, AllocError> {
    let mut remains = Vec::new(alloc);
    for node in nodes {
        remains.push(node.into_remains())?;
    }
    Ok(remains)
}

//! Pruning a state.
ghost use Rattle.std.specs.Prelude.{◌≡◌, List, IfOk};
ghost use Rattle.canton_model.specs.Inbox.{Item};
ghost use Rattle.framed_form.specs.FramedReading.{framed_reading};
ghost use Rattle.pruned_inbox.specs.Base;
ghost use Rattle.pruned_inbox.specs.Start.{GoesOn};
ghost use Rattle.node_core.specs.Participant.{IsPrunedTo, pruned_at};
ghost use Rattle.node_core.specs.States.{IsLawful, IsStateOf, MayBegin, begun_again, items_in, owner_of, start_in};

use confirm_reply::Setup;
use node_core::laws::lawful_states_may_begin;
use node_core::{Node, copy_responses};
use node_state::NodeState;
use std::alloc::{AllocError, Global};

// The state of a participant that begins again from this state, pruned to the base of its inbox.
fn begun_pruned(alloc: Global, setup: &Setup, state: &NodeState) -> Result<NodeState, AllocError>
    requires { MayBegin setup.now.topology setup.now.checked state.now }
    ensures base { IfOk result (λ pruned. pruned.base ≡ Base.base setup.now.topology.params (items_in setup.now.topology state.now)) }
    ensures start { IfOk result (λ pruned. GoesOn (framed_reading setup.now.topology setup.now.checked) (items_in setup.now.topology state.now)
        pruned.base (start_in state.now) (start_in pruned)) }
    ensures state { IfOk result (λ pruned. (whole : List Item) → IsPrunedTo whole (begun_again setup.now.topology setup.now.checked state.now)
        → IsStateOf (pruned_at pruned.base (start_in pruned) (begun_again setup.now.topology setup.now.checked state.now)) pruned) }
{
    let node = Node::from_state(alloc, setup, state)?;
    node.pruned_state(alloc)
}

/// The state with its inbox pruned to the inbox's base: the greatest place below which every request that was received is decided at that place. It is
/// the state that the participant would have, had it been pruned there itself. An error is want of memory alone.
pub fn prune(alloc: Global, setup: &Setup, state: &NodeState) -> Result<NodeState, AllocError>
    requires { IsLawful setup.now.topology setup.now.checked state.now }
    ensures base { IfOk result (λ pruned. pruned.base ≡ Base.base setup.now.topology.params (items_in setup.now.topology state.now)) }
    ensures start { IfOk result (λ pruned. GoesOn (framed_reading setup.now.topology setup.now.checked) (items_in setup.now.topology state.now)
        pruned.base (start_in state.now) (start_in pruned)) }
    ensures state { IfOk result (λ pruned. IsStateOf (pruned_at pruned.base (start_in pruned)
        (owner_of setup.now.topology setup.now.checked state.now)) pruned) }
    ensures lawful { IfOk result (λ pruned. IsLawful setup.now.topology setup.now.checked pruned) }
{
    lawful_states_may_begin();
    let outbox = copy_responses(alloc, state.outbox.as_slice())?;
    let mut pruned = begun_pruned(alloc, setup, state)?;
    pruned.outbox = outbox;
    Ok(pruned)
}

//! A participant that restarts.
ghost use Rattle.std.specs.Prelude.{◌≡◌, List, IfOk};
ghost use Rattle.node_restart.specs.Restarted.{CanRestart, HasRestarted};
ghost use Rattle.node_state.specs.declared.node_state.NodeState.{NodeState as State};
ghost use Rattle.snapshot_store.specs.InRange.{IsState};
ghost use Rattle.snapshot_store.specs.Spelling.{spell_state};
ghost use Rattle.world_model.specs.Machine.{Machine};
ghost use Rattle.world_model.specs.Messages.{Entry};

use confirm_reply::Setup;
use node_core::Node;
use node_state::NodeState;
use snapshot_store::{SnapFault, decode, encode};
use std::alloc::{AllocError, Global};

// The state that the bytes spell.
fn read_back(alloc: Global, bytes: &[u8]) -> Result<NodeState, AllocError>
    requires { (state : State) × IsState state × (bytes.now ≡ spell_state state) }
    ensures { IfOk result (λ read. (state : State) → IsState state → bytes.now ≡ spell_state state → read ≡ state) }
{
    match decode(alloc, bytes) {
        Ok(state) => Ok(state),
        Err(SnapFault::Memory) => Err(AllocError),
        Err(SnapFault::Bad { .. }) => unreachable!(),
    }
}

/// The participant that begins from the bytes of this one's state, pruned to the base of its inbox. It has read what this one has read, and claims
/// again what this one hasn't finished. All else that is asked of places from its base on it answers as this one does. This one stays as it is.
pub fn restarted<'s>(
    alloc: Global,
    setup: &'s Setup,
    node: &Node<'_>,
) -> Result<Node<'s>, AllocError>
    requires setup { (node.now.topology ≡ setup.now.topology) × (node.now.packages ≡ setup.now.checked) }
    requires read { (m : Machine) × (log : List Entry) × CanRestart m log node.now }
    ensures { IfOk result (λ after. (m : Machine) (log : List Entry) → CanRestart m log node.now → HasRestarted m log node.now after) }
{
    let state = node.pruned_state(alloc)?;
    let bytes = encode(alloc, &state)?;
    let kept = read_back(alloc, bytes.as_slice())?;
    Node::from_state(alloc, setup, &kept)
}

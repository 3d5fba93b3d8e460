//! The encoded bytes of a transaction.
ghost use Rattle.std.specs.Prelude.{◌≡◌};
ghost use Rattle.wire_form.specs.Lengths.{capped};
ghost use Rattle.wire_form.specs.Encoded.{action_bytes, encoded_bytes};
ghost use Rattle.interpret.specs.Interpreted.{if_small};

use crate::command_fault::CommandFault;
use ledger_terms::limits::MOST_ACTION_BYTES;
use ledger_terms::{Action, ActionNodeList};
use wire_form::{action_len, is_spellable_action};

fn action_bytes(action: &Action) -> u64
    ensures { result ≡ capped (action_bytes action.now) }
{
    if !is_spellable_action(action) {
        return u64::MAX;
    }
    (action_len(action) as u64).saturating_add(32)
}

/// The encoded bytes of a transaction's actions, by which its size is limited: the sum of 32 and the spelling's length over all actions, or the
/// greatest u64 where that is more or where an action has no spelling.
pub fn encoded_bytes(forest: &ActionNodeList) -> u64
    ensures { result ≡ capped (encoded_bytes forest.now) }
{
    let mut bytes: u64 = 0;
    for node in forest.as_slice() {
        bytes = bytes
            .saturating_add(action_bytes(&node.root.action))
            .saturating_add(encoded_bytes(&node.below));
    }
    bytes
}

/// The last test of a transaction: the actions as they are, or TooBig where their encoded bytes exceed the limit.
pub(crate) fn if_small(forest: ActionNodeList) -> Result<ActionNodeList, CommandFault>
    ensures { result ≡ if_small forest }
{
    let bytes = encoded_bytes(&forest);
    if bytes > MOST_ACTION_BYTES as u64 {
        return Err(CommandFault::TooBig { bytes });
    }
    Ok(forest)
}

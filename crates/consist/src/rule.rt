//! The two rules on the order of actions.
ghost use Rattle.std.specs.Prelude.{◌≡◌, []};
ghost use Rattle.ledger_model.specs.Status.{shows_unordered};
ghost use Rattle.consist.specs.Breaks.{breaks};
ghost use Rattle.consist.specs.Rules.{fails};

use crate::earlier::{
    Earlier, id_of, instance_of, is_create, some_consumes, some_creates, some_differs, some_on,
};
use ledger_terms::{Act, Action};

/// What each action has to keep after those before it.
#[derive(Clone, Copy)]
pub enum Rule {
    /// The order inside a transaction.
    Ordered,
    /// The consistency of a ledger.
    Consistent,
}

/// Whether an action is on a contract that one of the earlier actions of its transaction consumes, or creates one on which an earlier one is.
pub fn is_unordered(earlier: &[Earlier<'_>], action: &Action) -> bool
    ensures { result ≡ shows_unordered earlier.now (record { seed = []; action = action.now }) }
{
    let id = id_of(action);
    some_consumes(earlier, id) || (is_create(action) && some_on(earlier, id))
}

fn is_breaking(earlier: &[Earlier<'_>], action: &Action) -> bool
    ensures { result ≡ breaks earlier.now (record { seed = []; action = action.now }) }
{
    let id = id_of(action);
    let unwanted = if is_create(action) {
        some_on(earlier, id)
    } else {
        !some_creates(earlier, id)
    };
    unwanted || some_consumes(earlier, id) || some_differs(earlier, id, instance_of(action))
}

/// Whether an action fails the rule after those before it.
pub(crate) fn fails(rule: Rule, earlier: &[Earlier<'_>], act: &Act) -> bool
    ensures { result ≡ fails rule earlier.now act.now }
{
    match rule {
        Rule::Ordered => is_unordered(earlier, &act.action),
        Rule::Consistent => is_breaking(earlier, &act.action),
    }
}

//! Actions on contracts that aren't active.
ghost use Rattle.std.specs.Prelude.{◌≡◌, []};
ghost use Rattle.ledger_model.specs.Status.{is_active, shows_inactive};

use crate::earlier::{Earlier, id_of, is_create, some_creates};
use ledger_model::Status;
use ledger_terms::Action;

fn is_active(status: Status) -> bool
    ensures { result ≡ is_active status }
{
    match status {
        Status::Unknown => false,
        Status::Active => true,
        Status::Consumed => false,
    }
}

/// Whether an action is an Exercise or a Fetch of a contract that isn't active and that no earlier action creates. `status` is that of the action's
/// contract where the request stands, and `earlier` are the actions of the request before this one.
pub fn is_inactive(status: Status, earlier: &[Earlier<'_>], action: &Action) -> bool
    ensures { result ≡ shows_inactive (λ c. status) earlier.now (record { seed = []; action = action.now }) }
{
    !is_create(action) && (!is_active(status) && !some_creates(earlier, id_of(action)))
}

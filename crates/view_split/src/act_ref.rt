//! Actions that are lent.
ghost use Rattle.std.specs.Prelude.{◌≡◌};

use ledger_terms::{Act, Action, Hash};
use std::marker::Model;

/// An action and its seed, lent from where they stand, which contracts see as that action.
#[derive(Drop)]
pub struct ActRef<'a> {
    seed: &'a Hash,
    action: &'a Action,
}

impl<'a> Model for ActRef<'a> {
    ghost use Rattle.ledger_terms.specs.declared.act.Act.{Act};

    ghost Value = { Act };

    ghost view = { λ a. record { seed = a.seed.now; action = a.action.now } };
}

impl<'a> ActRef<'a> {
    /// An action and its seed that stand apart from each other, lent as one.
    pub fn new(seed: &'a Hash, action: &'a Action) -> ActRef<'a>
        ensures { result ≡ record { seed = seed.now; action = action.now } }
    {
        ActRef { seed, action }
    }

    /// An action that stands with its seed, lent.
    pub fn of(act: &'a Act) -> ActRef<'a>
        ensures { result ≡ act.now }
    {
        ActRef {
            seed: &act.seed,
            action: &act.action,
        }
    }

    /// The seed of the action.
    pub fn seed(&self) -> &'a Hash
        ensures { result.now ≡ self.now.seed }
    {
        self.seed
    }

    /// The action without its seed.
    pub fn action(&self) -> &'a Action
        ensures { result.now ≡ self.now.action }
    {
        self.action
    }
}

//! A call of a choice by its parts.
ghost use Rattle.std.specs.Prelude.{◌≡◌};

use ledger_model::ChoiceCall;
use ledger_terms::{Hash, Instance, Name, Value, ValueList};
use std::marker::Model;

/// A call of a choice whose parts stand elsewhere, which contracts see as the call. It takes no memory.
#[derive(Drop)]
pub struct CallParts<'a> {
    id: &'a Hash,
    instance: &'a Instance,
    choice: Name,
    args: &'a ValueList,
}

impl<'a> Model for CallParts<'a> {
    ghost use Rattle.ledger_model.specs.declared.step.ChoiceCall.{ChoiceCall};
    ghost use Rattle.std.specs.Coded.{codes};

    ghost Value = { ChoiceCall };

    ghost coded = { Prim.hlevel codes };

    ghost view = { λ c. record { id = c.id.now; instance = c.instance.now; choice = c.choice; args = c.args.now } };
}

impl<'a> CallParts<'a> {
    /// The call of the choice with this name and these arguments, on the contract with this id and instance. It borrows them: so an Exercise's parties
    /// are found without a copy of its parts.
    pub fn of(
        id: &'a Hash,
        instance: &'a Instance,
        choice: Name,
        args: &'a ValueList,
    ) -> CallParts<'a>
        ensures { result ≡ record { id = id.now; instance = instance.now; choice = choice; args = args.now } }
    {
        CallParts {
            id,
            instance,
            choice,
            args,
        }
    }

    /// The call, whose parts are borrowed from where it stands as a whole.
    pub fn of_call(call: &'a ChoiceCall) -> CallParts<'a>
        ensures { result ≡ call.now }
    {
        CallParts::of(&call.id, &call.instance, call.choice, &call.args)
    }

    /// The instance of the contract on which the choice is exercised.
    pub fn instance(&self) -> &Instance
        ensures { result.now ≡ self.now.instance }
    {
        self.instance
    }

    /// The name of the choice that is exercised.
    pub fn choice(&self) -> Name
        ensures { result ≡ self.now.choice }
    {
        self.choice
    }

    /// The arguments of the call, in the order of the choice's parameters.
    pub fn args(&self) -> &[Value]
        ensures { result.now ≡ self.now.args }
    {
        self.args.as_slice()
    }
}

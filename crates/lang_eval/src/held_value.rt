//! Values that an evaluation gives.
ghost use Rattle.std.specs.Prelude.{◌≡◌, IfOk};
ghost use Rattle.lang_eval.specs.Held.{held};
ghost use Rattle.lang_eval.specs.Value.{is_true, is_false};

use crate::holding::Holding;
use ledger_terms::{Exact, Value};
use std::alloc::AllocError;
use std::marker::Model;

/// A value that an evaluation gives, which contracts see as that value. Where it stands elsewhere, as in a field or in an
/// expression, it is borrowed.
#[derive(Drop)]
pub struct HeldValue<'a> {
    holding: Holding<'a>,
}

impl<'a> Model for HeldValue<'a> {
    ghost use Rattle.ledger_terms.specs.declared.value.Value as value;
    ghost use Rattle.lang_eval.specs.Held.{held};

    ghost Value = { value.Value };

    ghost view = { λ v. held v.holding };
}

fn value_held<'a>(holding: &'a Holding<'_>) -> &'a Value
    ensures { result.now ≡ held holding.now }
{
    match holding {
        Holding::Given(value) => *value,
        Holding::Made(value) => value,
    }
}

impl<'a> HeldValue<'a> {
    /// A value that is borrowed from where it stands, as in a field or in an expression.
    pub fn given(value: &'a Value) -> HeldValue<'a>
        ensures { result ≡ value.now }
    {
        HeldValue {
            holding: Holding::Given(value),
        }
    }

    /// A value that an evaluation made and that stands nowhere else.
    pub fn made(value: Value) -> HeldValue<'a>
        ensures { result ≡ value }
    {
        HeldValue {
            holding: Holding::Made(value),
        }
    }

    /// The value, be it borrowed or made, to look at.
    pub fn as_value(&self) -> &Value
        ensures { result.now ≡ self.now }
    {
        value_held(&self.holding)
    }

    /// Whether the value is the Bool true; a value of another kind isn't.
    pub fn is_true(&self) -> bool
        ensures { result ≡ is_true self.now }
    {
        match self.as_value() {
            Value::Bool(yes) => *yes,
            _ => false,
        }
    }

    /// Whether the value is the Bool false; a value of another kind isn't, so of that neither test is true.
    pub fn is_false(&self) -> bool
        ensures { result ≡ is_false self.now }
    {
        match self.as_value() {
            Value::Bool(yes) => !*yes,
            _ => false,
        }
    }

    /// The value for the caller to keep. Where it was borrowed it is copied, and an Err is want of memory for the copy.
    pub fn into_value(self) -> Result<Value, AllocError>
        ensures { IfOk result (λ v. v ≡ self.entry) }
    {
        let HeldValue { holding } = self;
        match holding {
            Holding::Given(value) => value.copied(),
            Holding::Made(value) => Ok(value),
        }
    }
}

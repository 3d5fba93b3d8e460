//! The names that an evaluation begins with.
ghost use Rattle.std.specs.Prelude.{◌≡◌, ◌<◌, ◌^◌, ◌++◌, [], length, take, option_copied};
ghost use Rattle.lang_eval.specs.Names.{binding_of, value_bound, itself_names};

use crate::bound_fields::BoundFields;
use ledger_terms::{Text, Value};
use std::marker::Model;

/// The names that an evaluation begins with, which contracts see as a list: the contract of a choice where it is named, the
/// contract's fields, and then the choice's arguments. They take no memory.
#[derive(Drop)]
pub struct GivenNames<'a> {
    itself: Option<Value>,
    fields: BoundFields<'a>,
    arguments: BoundFields<'a>,
}

impl<'a> Model for GivenNames<'a> {
    ghost use Rattle.std.specs.Prelude.{List, ◌++◌};
    ghost use Rattle.lang_eval.specs.declared.binding.Binding.{Binding};
    ghost use Rattle.lang_eval.specs.Names.{itself_names};

    ghost Value = { List Binding };

    ghost view = { λ g. itself_names g.itself ++ (g.fields ++ g.arguments) };
}

fn itself_len(itself: &Option<Value>) -> usize
    ensures count { result ≡ length (itself_names itself.now) }
    ensures small { result < 2 }
{
    match itself {
        Some(_) => 1,
        None => 0,
    }
}

fn itself_value<'a>(itself: &'a Option<Value>, name: &Text) -> Option<&'a Value>
    ensures { option_copied result ≡ value_bound (binding_of name.now (itself_names itself.now)) }
{
    match itself {
        Some(value) => {
            if "self" == name.as_str() {
                Some(value)
            } else {
                None
            }
        }
        None => None,
    }
}

fn truncate_itself(itself: &mut Option<Value>, len: usize)
    ensures { itself_names itself.new ≡ take len (itself_names itself.old) }
{
    if len == 0 {
        *itself = None;
    }
}

impl<'a> GivenNames<'a> {
    /// No names, where an evaluation begins with none.
    pub fn none() -> GivenNames<'a>
        ensures { result ≡ [] }
    {
        GivenNames {
            itself: None,
            fields: BoundFields::none(),
            arguments: BoundFields::none(),
        }
    }

    /// The names that an evaluation begins with, in this order: `self` with the value `itself`, or no `self` where that is None, as for signatories;
    /// the contract's fields; and the choice's arguments.
    pub fn of(
        itself: Option<Value>,
        fields: BoundFields<'a>,
        arguments: BoundFields<'a>,
    ) -> GivenNames<'a>
        ensures { result ≡ itself_names itself ++ (fields.entry ++ arguments.entry) }
    {
        GivenNames {
            itself,
            fields,
            arguments,
        }
    }

    /// How many names are bound: `self`, fields and arguments together.
    pub fn len(&self) -> usize
        ensures count { result ≡ length self.now }
        ensures small { result < 2 ^ 60 }
    {
        itself_len(&self.itself) + self.fields.len() + self.arguments.len()
    }

    /// The value of the first binding that a variable with the text `name` means; None where that name isn't bound.
    #[tactic(auto, using(crate::proofs::Given::bound_first, crate::proofs::Given::bound_second))]
    pub fn value(&self, name: &Text) -> Option<&Value>
        ensures { option_copied result ≡ value_bound (binding_of name.now self.now) }
    {
        if let Some(value) = itself_value(&self.itself, name) {
            return Some(value);
        }
        if let Some(value) = self.fields.value(name) {
            return Some(value);
        }
        self.arguments.value(name)
    }

    /// Forgets all names behind the first `len`; where there are no more than that, it forgets none.
    #[tactic(auto, using(crate::proofs::Given::taken_of_two))]
    pub fn truncate(&mut self, len: usize)
        ensures { self.new ≡ take len self.old }
    {
        let before = itself_len(&self.itself);
        let fields = self.fields.len();
        truncate_itself(&mut self.itself, len);
        self.fields.truncate(len.saturating_sub(before));
        self.arguments.truncate(len.saturating_sub(before + fields));
    }
}

//! Fields with their values.
ghost use Rattle.std.specs.Prelude.{◌≡◌, ◌<◌, ◌^◌, [], length, take, option_copied};
ghost use Rattle.lang_eval.specs.Names.{with_fields, binding_of, value_bound, value_named};
ghost use Rattle.lang_eval.specs.Spellings.{owner_word};

use crate::bound_name::field_part;
use crate::owner::Owner;
use crate::short_text::is_same_text;
use ledger_terms::{FieldDecl, Text, Value};
use std::marker::Model;

/// The fields of a contract, or the arguments of a choice, with their values, which contracts see as a list of names with
/// values. It borrows both, and takes no memory.
#[derive(Drop)]
pub struct BoundFields<'a> {
    owner: Owner,
    decls: &'a [FieldDecl],
    values: &'a [Value],
}

impl<'a> Model for BoundFields<'a> {
    ghost use Rattle.std.specs.Prelude.{List, []};
    ghost use Rattle.lang_eval.specs.declared.binding.Binding.{Binding};
    ghost use Rattle.lang_eval.specs.Names.{with_fields};
    ghost use Rattle.lang_eval.specs.Spellings.{owner_word};

    ghost Value = { List Binding };

    ghost view = { λ f. with_fields (owner_word f.owner) f.decls.now f.values.now [] };
}

/// The value of the first field of that name.
fn value_named<'a>(decls: &[FieldDecl], values: &'a [Value], name: &[u8]) -> Option<&'a Value>
    ensures { option_copied result ≡ value_named name.now decls.now values.now }
{
    let mut at = 0;
    while at < decls.len() && at < values.len() {
        let value = &values[at];
        if is_same_text(decls[at].name.as_bytes(), name) {
            return Some(value);
        }
        at += 1;
    }
    None
}

/// The value of the field that a text names behind its owner's word.
#[tactic(auto, using(crate::proofs::Given::field_found, crate::proofs::Given::field_absent))]
fn field_value<'a>(
    owner: &[u8],
    decls: &[FieldDecl],
    values: &'a [Value],
    text: &[u8],
) -> Option<&'a Value>
    ensures { option_copied result ≡ value_bound (binding_of text.now (with_fields owner.now decls.now values.now [])) }
{
    match field_part(text, owner) {
        Some(part) => value_named(decls, values, part),
        None => None,
    }
}

fn first_values<'a>(values: &'a [Value], len: usize) -> &'a [Value]
    ensures { result.now ≡ take len values.now }
{
    if len < values.len() {
        &values[..len]
    } else {
        values
    }
}

impl<'a> BoundFields<'a> {
    /// The values of the fields or parameters that `decls` declares, in order, each under the owner's word, a dot and the field's name, as
    /// `this.amount`. Where one list is longer than the other, the rest of it is left out.
    pub fn of(owner: Owner, decls: &'a [FieldDecl], values: &'a [Value]) -> BoundFields<'a>
        ensures { result ≡ with_fields (owner_word owner) decls.now values.now [] }
    {
        BoundFields {
            owner,
            decls,
            values,
        }
    }

    /// No fields: where an evaluation has no arguments, or no names at all.
    pub fn none() -> BoundFields<'a>
        ensures { result ≡ [] }
    {
        BoundFields::of(Owner::This, &[], &[])
    }

    /// How many fields have a value.
    #[tactic(auto, using(crate::proofs::Given::counted_by_decls, crate::proofs::Given::counted_by_values))]
    pub fn len(&self) -> usize
        ensures count { result ≡ length self.now }
        ensures small { result < 2 ^ 58 }
    {
        if self.decls.len() < self.values.len() {
            self.decls.len()
        } else {
            self.values.len()
        }
    }

    /// The value of the first field that a variable with the text `name` means, as `this.amount` does; None where it means none of these fields.
    pub fn value(&self, name: &Text) -> Option<&Value>
        ensures { option_copied result ≡ value_bound (binding_of name.now self.now) }
    {
        let text = name.as_str().as_bytes();
        let owner = self.owner.as_str().as_bytes();
        field_value(owner, self.decls, self.values, text)
    }

    /// Forgets all fields behind the first `len`; where there are no more than that, it forgets none.
    #[tactic(auto, using(crate::proofs::Given::fields_taken))]
    pub fn truncate(&mut self, len: usize)
        ensures { self.new ≡ take len self.old }
    {
        let values = first_values(self.values, len);
        self.values = values;
    }
}

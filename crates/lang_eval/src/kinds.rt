//! Whether values have the kinds that are declared.
ghost use Rattle.std.specs.Prelude.{◌≡◌};
ghost use Rattle.lang_eval.specs.Kinds.{kind_of, have_kinds, has_kinds, call_has_kinds};

use crate::checked::Checked;
use ledger_model::ChoiceCall;
use ledger_terms::{FieldDecl, Instance, Kind, Value};

/// The kind of a value.
pub fn kind_of(value: &Value) -> Kind
    ensures { result ≡ kind_of value.now }
{
    match value {
        Value::Unit => Kind::Unit,
        Value::Int(_) => Kind::Int,
        Value::Bool(_) => Kind::Bool,
        Value::Text(_) => Kind::Text,
        Value::Party(_) => Kind::Party,
        Value::Contract(_) => Kind::Contract,
        Value::Parties(_) => Kind::Parties,
    }
}

/// Whether the values are as many as the fields or parameters that are declared, and each has its declared kind.
pub fn have_kinds(values: &[Value], decls: &[FieldDecl]) -> bool
    ensures { result ≡ have_kinds values.now decls.now }
{
    if values.len() != decls.len() {
        return false;
    }
    for at in 0..values.len() {
        if kind_of(&values[at]) != decls[at].kind {
            return false;
        }
    }
    true
}

/// Whether the instance's template is there, and its fields are as many as the template declares and have their kinds.
pub fn has_kinds(checked: &Checked, instance: &Instance) -> bool
    ensures { result ≡ has_kinds checked.now instance.now }
{
    match checked.template(instance.template) {
        Some(template) => have_kinds(instance.fields.as_slice(), template.fields.as_slice()),
        None => false,
    }
}

/// Whether the call's choice is there, and its arguments are as many as the choice's parameters and have their kinds.
pub fn call_has_kinds(checked: &Checked, call: &ChoiceCall) -> bool
    ensures { result ≡ call_has_kinds checked.now call.now }
{
    match checked.choice(call.instance.template, call.choice) {
        Some(choice) => have_kinds(call.args.as_slice(), choice.params.as_slice()),
        None => false,
    }
}

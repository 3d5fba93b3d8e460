//! Whether spellings keep their limits. A text of more than 256 bytes, a set of more than 128 names and a list of more than
//! 12 values have no spelling, so they keep no limit.
ghost use Rattle.std.specs.Prelude.{◌≡◌, true};
ghost use Rattle.wire_form.specs.Spellable.{IsSpellableInstance};
ghost use Rattle.interpret.specs.Sizes.{are_small_args, is_small_instance, is_small_result};

use ledger_terms::{Instance, Value, ValueList};
use wire_form::{
    are_spellable, instance_len, is_spellable, is_spellable_instance, value_len, values_len,
};

/// Whether an instance has a spelling, and that of at most 1,024 bytes.
#[tactic(auto, unfolding(crate::specs::Sizes::is_small_instance))]
pub fn is_small_instance(instance: &Instance) -> bool
    ensures small { result ≡ is_small_instance instance.now }
    ensures spellable { result ≡ true → IsSpellableInstance instance.now }
{
    is_spellable_instance(instance) && instance_len(instance) <= 1024
}

/// Whether arguments have a spelling, and that of at most 1,024 bytes, the byte of their count among them.
#[tactic(auto, unfolding(crate::specs::Sizes::are_small_args))]
pub fn are_small_args(args: &ValueList) -> bool
    ensures { result ≡ are_small_args args.now }
{
    are_spellable(args) && values_len(args) <= 1024
}

/// Whether the result of a choice has a spelling, and that of at most 1,024 bytes.
#[tactic(auto, unfolding(crate::specs::Sizes::is_small_result))]
pub fn is_small_result(value: &Value) -> bool
    ensures { result ≡ is_small_result value.now }
{
    is_spellable(value) && value_len(value) <= 1024
}

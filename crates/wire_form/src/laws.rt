//! Laws of the formats, each the contract of a function with nothing to do.
ghost use Rattle.wire_form.specs.Laws.{HasOneSpelling, IsEnoughFor, IsGivenBy, NoneBeginsAnother};
ghost use Rattle.wire_form.specs.Reading.{action_at, instance_at, set_at, value_at, values_at};
ghost use Rattle.wire_form.specs.Spelling.{spell_action, spell_instance, spell_parties, spell_value, spell_values};
ghost use Rattle.wire_form.specs.Spellable.{AreSpellable, IsSpellable, IsSpellableAction, IsSpellableInstance, IsSpellableSet};
ghost use Rattle.wire_form.specs.InRange.{AreInRange, IsAction, IsInRange, IsInstance, IsPartySet};

/// No spelling of a value, a list of values, a set, an instance or an action in range begins that of another one of its kind. So bytes that begin with
/// such a spelling begin with that of no other of the kind.
pub fn none_begins_another()
    ensures values { NoneBeginsAnother spell_value IsInRange }
    ensures lists { NoneBeginsAnother spell_values AreInRange }
    ensures sets { NoneBeginsAnother spell_parties IsPartySet }
    ensures instances { NoneBeginsAnother spell_instance IsInstance }
    ensures actions { NoneBeginsAnother spell_action IsAction }
{}

/// Each value in range has one spelling: the bytes that are read as it are its spelling, and its spelling is read as it.
pub fn one_spelling()
    ensures values { HasOneSpelling spell_value IsInRange value_at }
    ensures lists { HasOneSpelling spell_values AreInRange values_at }
    ensures sets { HasOneSpelling spell_parties IsPartySet set_at }
    ensures instances { HasOneSpelling spell_instance IsInstance instance_at }
    ensures actions { HasOneSpelling spell_action IsAction action_at }
{}

/// What is in range can be encoded: its counts and lengths have room in a spelling. So what a decoder gives can be encoded again.
pub fn in_range_is_spellable()
    ensures values { IsEnoughFor IsInRange IsSpellable }
    ensures lists { IsEnoughFor AreInRange AreSpellable }
    ensures sets { IsEnoughFor IsPartySet IsSpellableSet }
    ensures instances { IsEnoughFor IsInstance IsSpellableInstance }
    ensures actions { IsEnoughFor IsAction IsSpellableAction }
{}

/// What a reading gives of any bytes can be encoded: its counts and lengths have room in a spelling.
pub fn what_is_read_is_spellable()
    ensures values { IsGivenBy value_at IsSpellable }
    ensures lists { IsGivenBy values_at AreSpellable }
    ensures sets { IsGivenBy set_at IsSpellableSet }
    ensures instances { IsGivenBy instance_at IsSpellableInstance }
    ensures actions { IsGivenBy action_at IsSpellableAction }
{}

//! Laws of the formats, each the contract of a function with nothing to do.
ghost use Rattle.std.specs.Prelude.{ℕ};
ghost use Rattle.wire_form.specs.Laws.{HasOneSpelling, IsEnoughFor, NoneBeginsAnother};
ghost use Rattle.message_bytes.specs.InRange.{IsPath, IsResponse, IsVerdict};
ghost use Rattle.message_bytes.specs.Reading.{path_at, response_at, verdict_at};
ghost use Rattle.message_bytes.specs.Spellable.{IsSpellablePath, IsSpellableResponse, IsSpellableVerdict};
ghost use Rattle.message_bytes.specs.Spelling.{spell_path, spell_response, spell_verdict};

/// No spelling of a path, a response or a verdict in range begins that of another one of its kind. So bytes that begin with such a spelling begin with
/// that of no other of the kind.
pub fn none_begins_another()
    ensures paths { NoneBeginsAnother spell_path IsPath }
    ensures responses { (most : ℕ) → NoneBeginsAnother spell_response (IsResponse most) }
    ensures verdicts { (most : ℕ) → NoneBeginsAnother spell_verdict (IsVerdict most) }
{}

/// Each path, response and verdict in range has one spelling: the bytes that are read as it are its spelling, and its spelling is read as it. `most` is
/// the greatest number that a participant may have in a response or a verdict.
pub fn one_spelling()
    ensures paths { HasOneSpelling spell_path IsPath path_at }
    ensures responses { (most : ℕ) → HasOneSpelling spell_response (IsResponse most) (response_at most) }
    ensures verdicts { (most : ℕ) → HasOneSpelling spell_verdict (IsVerdict most) (verdict_at most) }
{}

/// A path, a response or a verdict in range, as all are that a decoder gives, has room in a spelling and so can be encoded again.
pub fn in_range_is_spellable()
    ensures paths { IsEnoughFor IsPath IsSpellablePath }
    ensures responses { (most : ℕ) → IsEnoughFor (IsResponse most) IsSpellableResponse }
    ensures verdicts { (most : ℕ) → IsEnoughFor (IsVerdict most) IsSpellableVerdict }
{}

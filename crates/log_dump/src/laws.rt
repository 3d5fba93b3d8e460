//! Laws of the formats, each the contract of a function with nothing to do.
ghost use Rattle.std.specs.Prelude.{◌≡◌, ◌<◌, ◌^◌, ℕ, List, Some, length};
ghost use Rattle.canton_model.specs.Genuine.{Genuine, IsReading};
ghost use Rattle.canton_model.specs.Log.{Params, request_at as asked_at};
ghost use Rattle.canton_model.specs.Reading.{Reading as Readings};
ghost use Rattle.canton_model.specs.declared.entry.Entry.{Entry};
ghost use Rattle.canton_model.specs.declared.request.Request.{Request};
ghost use Rattle.log_dump.specs.Room.{HasRoom};
ghost use Rattle.wire_form.specs.Laws.{HasOneSpelling, IsEnoughFor};
ghost use Rattle.log_dump.specs.InRange.{IsBlock, IsEntry, IsLog};
ghost use Rattle.log_dump.specs.Reading.{block_at, entry_at, log_at};
ghost use Rattle.log_dump.specs.Spellable.{IsSpellableEntry, IsSpellableLog};
ghost use Rattle.log_dump.specs.Spelling.{spell_block, spell_entry, spell_log};

/// Each block of bytes, each entry and each log in range has one spelling: the bytes that are read as it are its spelling, and its spelling is read as
/// it.
pub fn one_spelling()
    ensures blocks { HasOneSpelling spell_block IsBlock block_at }
    ensures entries { (most : ℕ) → HasOneSpelling spell_entry (IsEntry most) (entry_at most) }
    ensures logs { (most : ℕ) → HasOneSpelling spell_log (IsLog most) (log_at most) }
{}

/// An entry or a log in range, as all are that a reader gives, has room in a spelling and so can be encoded again.
pub fn in_range_is_spellable()
    ensures entries { (most : ℕ) → IsEnoughFor (IsEntry most) IsSpellableEntry }
    ensures logs { (most : ℕ) → IsEnoughFor (IsLog most) IsSpellableLog }
{}

/// A genuine log of fewer than 2^32 entries has a spelling where each of its requests has room in one, with the responses to it (`HasRoom`). For what
/// participants owe and what the mediator decides has room then, too.
pub fn genuine_logs_are_spellable()
    ensures { (reading : Readings) (params : Params) (log : List Entry)
        → IsReading reading
        → Genuine reading params log
        → length log < 2 ^ 32
        → ((k : ℕ) (request : Request) → asked_at log k ≡ Some request → HasRoom reading request)
        → IsSpellableLog log }
{}

//! Laws of the words.
ghost use Rattle.std.specs.Prelude.{◌≡◌, ◌^◌, ◌+◌};
ghost use Rattle.cli_words.specs.declared.limits.TheConstants.{MOST_COUNT, MOST_DIGITS, MOST_SEED, MOST_WORKERS};

/// The limits of the words, as the formats have them: at most 20 digits of a number, 8 workers, 1,024 debts of a generated script, and the greatest
/// seed 2^64 - 1.
pub fn limits_are_those_of_the_words()
    ensures { (MOST_DIGITS ≡ 20) × (MOST_WORKERS ≡ 8) × (MOST_COUNT ≡ 1024) × (MOST_SEED + 1 ≡ 2 ^ 64) }
{}

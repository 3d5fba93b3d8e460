//! Laws of generated scripts.
ghost use Rattle.std.specs.Prelude.{◌≡◌, ℕ, ◌*◌, ◌≤◌, ◌^◌};
ghost use Rattle.ledger_terms.specs.declared.limits.TheConstants.{MOST_SUBMISSIONS};
ghost use Rattle.script_read.specs.Kept.{IsAccepted};
ghost use Rattle.load_gen.specs.Generated.{generated};
ghost use Rattle.load_gen.specs.declared.numbers.TheConstants.{AMOUNTS, INCREMENT, MULTIPLIER};
ghost use Rattle.load_gen.specs.declared.topology.TheConstants.{PARTICIPANTS, REACTION_TIMEOUT, RESPONSE_TIMEOUT, SKEW};

/// A generated script is accepted as one that was read is (`IsAccepted`), whatever its seed, where twice its count of debts is at most the number of
/// submissions that a script may have, 2,048: each debt is created and transferred. The command line lets no more than 1,024 debts through.
pub fn generated_scripts_are_accepted()
    ensures { (seed count : ℕ) → 2 * count ≤ MOST_SUBMISSIONS → IsAccepted (generated seed count) }
{}

/// The numbers of the generator: its multiplier and its increment (those of Knuth's MMIX) and how many amounts there are; and those of the topology:
/// four participants, and its times in microseconds.
pub fn numbers_are_those_of_the_format()
    ensures numbers { (MULTIPLIER ≡ 6364136223846793005) × (INCREMENT ≡ 1442695040888963407) × (AMOUNTS ≡ 1000) }
    ensures topology { (PARTICIPANTS ≡ 4) × (RESPONSE_TIMEOUT ≡ 30000000) × (REACTION_TIMEOUT ≡ 30000000) × (SKEW ≡ 60000000) }
{}

//! Laws of the scripts that are read.
ghost use Rattle.std.specs.Prelude.{◌≡◌, ℕ, List, Ok};
ghost use Rattle.ledger_terms.specs.Topologies.{IsValid};
ghost use Rattle.script_read.specs.Kept.{AreRounds};
ghost use Rattle.script_read.specs.PackageLimits.{AreAccepted};
ghost use Rattle.script_read.specs.Script.{script_in};
ghost use Rattle.script_read.specs.declared.script.Script.{Script};

/// The topology of a script that is read without a fault is one that a synchroniser can be made for (`IsValid`).
pub fn topologies_are_valid()
    ensures { (bytes : List ℕ) (s : Script) → script_in bytes ≡ Ok s → IsValid s.topology }
{}

/// The packages of a script that is read without a fault are within their limits, and name no party but those for which a participant confirms.
pub fn packages_are_within_limits()
    ensures { (bytes : List ℕ) (s : Script) → script_in bytes ≡ Ok s → AreAccepted s.topology.hosts s.checked }
{}

/// The rounds of a script that is read without a fault are within their limits, and name only participants and parties of its topology.
pub fn rounds_are_within_limits()
    ensures { (bytes : List ℕ) (s : Script) → script_in bytes ≡ Ok s → AreRounds s }
{}

//! Tests of contracts.
ghost use Rattle.std.specs.Prelude.{◌≡◌, Bool};

use ledger_terms::Known;

/// What some contracts pass. To ask takes no memory.
pub trait ContractTest {
    ghost use Rattle.std.specs.Prelude.{Bool};
    ghost use Rattle.ledger_terms.specs.declared.known.Known.{Known};

    ghost passes: { Self → Known → Bool };

    /// Whether the contract passes the test.
    fn passes(&self, known: &Known) -> bool
        ensures { result ≡ passes self.now known.now };
}

/// The test that all contracts pass.
pub struct EveryContract;

impl ContractTest for EveryContract {
    ghost use Rattle.std.specs.Prelude.{true};

    ghost passes = { λ _ k. true };

    fn passes(&self, _known: &Known) -> bool {
        true
    }
}

//! Rules that fired.
use ledger_terms::ListOf;

/// A rule fired in a round, with the words of the report, which name the contract on which it did and the command that it submitted.
#[derive(Clone, Copy)]
pub struct Fired<'t> {
    pub round: u64,
    pub rule: &'t str,
    pub words: &'t str,
}

/// Rules that fired, in the order of the report.
pub type FiredList<'t> = ListOf<Fired<'t>>;

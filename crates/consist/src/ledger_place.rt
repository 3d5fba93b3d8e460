//! Where an action of a ledger stands.
use ledger_terms::Path;

/// The place in the log of an action's commit, and the action's path there.
#[derive(Drop)]
pub struct LedgerPlace {
    pub commit: u64,
    pub path: Path,
}

//! What participants know at the end.
use crate::lane::Lane;
use ledger_terms::ListOf;

/// What a participant knows at the end: its clean place and the time there, its base, if it restarted, how many approved requests are
/// withheld from it, how many commits and actions it tells, and how many contracts are active for it.
#[derive(Clone, Copy)]
pub struct Summary {
    pub participant: Lane,
    pub clean: u64,
    pub time: u64,
    pub pruned: Option<u64>,
    pub withheld: u64,
    pub commits: u64,
    pub actions: u64,
    pub actives: u64,
}

/// What each participant knows.
pub type SummaryList = ListOf<Summary>;

//! What rounds answered.

use ledger_terms::U64List;
use node_core::SubmitResultList;
use trigger_rules::CausedList;

/// The results of submissions, in their order, the length of the log at the end of each part of a round, and what rules caused.
#[derive(Drop)]
pub struct Answers {
    pub results: SubmitResultList,
    pub ends: U64List,
    pub caused: CausedList,
}

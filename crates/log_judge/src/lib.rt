//! Judging a log entry by entry, as one that a synchroniser may have written: the first entry that doesn't fit those before it, and why.
#![tactic(auto)]

mod auditor;
mod exercised;
mod follows;
mod judgement;
mod judging;
mod participants;
mod read_log;
mod rule_use;
mod rule_uses;
mod same;
mod triggers;

pub use auditor::Auditor;
pub use judgement::Judgement;
pub use judging::judge_log;
pub use participants::Participants;

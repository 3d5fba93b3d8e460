//! Whether the actions of a transaction, and those of a ledger, come in an order that contracts allow.
#![tactic(auto)]

mod earlier;
mod inactive;
pub mod laws;
pub mod ledger;
pub mod ledger_place;
pub mod order;
mod rule;
mod walk;

pub use earlier::Earlier;
pub use inactive::is_inactive;
pub use ledger::find_inconsistent;
pub use ledger_model::{Commit, CommitList};
pub use ledger_place::LedgerPlace;
pub use order::find_unordered;
pub use rule::is_unordered;

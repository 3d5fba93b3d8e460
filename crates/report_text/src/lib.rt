//! The exact text of a run: a line for each entry, result, firing of a rule, outcome, participant, base of one that restarted, withheld
//! place, commit, action and active contract.
#![tactic(auto)]

mod actions;
mod entries;
mod fault_names;
mod fired;
pub mod laws;
mod outcome_lines;
mod outcomes;
mod participants;
mod results;
mod submissions;
mod totals;
mod values;
mod whole;

pub use actions::{put_action, put_trees};
pub use entries::{put_host, put_path};
pub use fault_names::command_fault_name;
pub use submissions::Submissions;
pub use totals::summary;
pub use values::{put_instance, put_names, put_number, put_value};
pub use whole::report;

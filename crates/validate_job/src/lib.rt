//! The check of a request by one participant, as a job that checks one view at each step.
#![tactic(auto)]

mod finished;
mod job;
pub mod laws;
mod polling;

pub use finished::Finished;
pub use job::ValidateJob;

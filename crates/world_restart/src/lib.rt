//! Participants of a synchroniser that restart where a round begins.
#![tactic(auto)]

mod restarting;

pub use restarting::restart;

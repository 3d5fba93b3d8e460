//! Participants that restart: each is replaced by one that begins from the bytes of its state, pruned to its base.
#![tactic(auto)]

pub mod laws;
mod restarting;

pub use restarting::restarted;

//! What a set of parties is told of a transaction.
#![tactic(auto)]

pub mod laws;
pub mod projection;

pub use projection::project;

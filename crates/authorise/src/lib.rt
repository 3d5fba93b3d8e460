//! Whether actions have the authority that they need.
#![tactic(auto)]

pub mod authority;
mod fetching;
pub mod laws;
mod parties;

pub use authority::{authorised, children_authorised};

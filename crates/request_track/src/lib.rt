//! The requests of which a participant is a recipient, what became of them, and how far all are decided.
#![tactic(auto)]

pub mod laws;
mod pairs;
mod places;
mod tracked;
mod tracker;

pub use canton_model::Outcome;
pub use tracked::Tracked;
pub use tracker::Tracker;

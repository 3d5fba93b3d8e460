//! The text of commitments: whether each two participants know the same contracts of which both host a stakeholder.
#![tactic(auto)]

mod active_at;
mod asked_node;
pub mod laws;
mod pairs;
mod whole;

pub use whole::commitments;

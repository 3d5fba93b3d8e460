//! The request that a submission wants, over the contracts that its participant offers.
#![tactic(auto)]

mod hosted_contracts;
mod hosted_ids;
pub mod laws;
mod preparing;
mod submit_fault;

pub use confirm_reply::has_hosted_stakeholder;
pub use hosted_contracts::HostedContracts;
pub use hosted_ids::HostedIds;
pub use preparing::prepare;
pub use submit_fault::SubmitFault;

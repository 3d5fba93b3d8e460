//! What a participant keeps beside its inbox: a store of contracts with the holds on them, and the requests that it received. Both
//! follow the inbox item by item.
#![tactic(auto)]

mod change;
mod kept_start;
pub mod laws;
mod passing;
mod registry;
mod writing;

pub use change::Change;
pub use kept_start::KeptStart;
pub use registry::Registry;

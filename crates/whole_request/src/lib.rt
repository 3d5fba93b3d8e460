//! What is requested, read back as a whole from the envelopes of a request that anybody may have sent.
#![tactic(auto)]

mod complete;
mod part;
mod reading;
mod together;
mod whole_transaction;

pub use reading::whole_of;
pub use whole_transaction::WholeTransaction;

//! What a participant knows of contracts: a row for each, and what is held by requests that aren't decided.
#![tactic(auto)]

mod active;
mod compact;
mod contract_places;
mod contract_test;
mod hold;
mod holds;
pub mod laws;
mod lookup;
mod ready;
mod row;
mod rows;
mod store;

pub use contract_test::ContractTest;
pub use hold::{HashList, Hold};
pub use ledger_model::Status;
pub use row::StoreRow;
pub use store::Store;

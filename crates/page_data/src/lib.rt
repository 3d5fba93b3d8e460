//! What participants know at each place of a log, and for whom the mediator waits there, as plain data.
#![tactic(auto)]

mod contract_state;
mod course;
mod gathering;
mod knowledge;
mod open_request;
mod owed;
mod owing;
mod reading;
mod request_state;
mod waiting;

pub use contract_state::{ContractState, ContractStateList};
pub use course::{Course, StoreRowList};
pub use knowledge::{Knowledge, KnowledgeList};
pub use open_request::{OpenRequest, OpenRequestList, OpenRequestLists};
pub use owed::{Owed, OwedList};
pub use reading::course_of;
pub use request_state::{RequestState, RequestStateList};
pub use waiting::waiting_over;

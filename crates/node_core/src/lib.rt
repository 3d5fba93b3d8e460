//! One participant of a synchroniser: what it reads, what it checks, and what it answers.
#![tactic(auto)]

mod cancelled;
mod completion;
mod copies;
mod decisions;
mod duties;
pub mod laws;
mod node;
mod node_view;
mod outbox;
mod remains;
mod submit_refusal;
mod submit_result;

pub use cancelled::Cancelled;
pub use completion::Completion;
pub use copies::copy_responses;
pub use node::Node;
pub use node_view::{ActiveRowLists, NodeView, NodeViewList};
pub use prepare_request::SubmitFault;
pub use remains::NodeRemains;
pub use submit_refusal::SubmitRefusal;
pub use submit_result::{SubmitResult, SubmitResultList};

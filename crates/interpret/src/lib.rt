//! Commands become trees of actions, and trees of actions are tried by running them again.
#![tactic(auto)]

mod asking;
mod command_fault;
mod demand;
mod encoded;
mod filler;
mod ids;
mod interpretation;
mod interpreter;
mod labels;
pub mod laws;
mod place;
mod progress;
mod references;
mod replay;
mod result_of_child;
mod sizes;
mod stepping;
mod tested;
mod turn;

pub use command_fault::CommandFault;
pub use demand::Demand;
pub use encoded::encoded_bytes;
pub use filler::fill;
pub use ids::{contract_id, is_authentic, label_seed};
pub use interpretation::interpret;
pub use progress::{HashList, Progress};
pub use replay::reexecute;
pub use sizes::{are_small_args, is_small_instance, is_small_result};

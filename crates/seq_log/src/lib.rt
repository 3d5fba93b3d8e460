//! The sequencer: one rising log, each message of which stands in it once.
#![tactic(auto)]

mod admission;
mod fault;
mod key;
mod late;
mod log_index;
mod open_requests;
mod place;
mod sequencer;

pub use fault::{AppendFault, AppendRefusal};
pub use key::{Key, key_of};
pub use place::{place_of, put_place, stands};
pub use sequencer::Sequencer;

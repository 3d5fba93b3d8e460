//! States of participants as bytes.
#![tactic(auto)]

mod decoding;
mod encoding;
mod known;
pub mod laws;
mod pruning;
mod read_item;
mod read_state;
mod snap_fault;
mod typed;

pub use decoding::decode;
pub use encoding::encode;
pub use pruning::prune;
pub use snap_fault::SnapFault;

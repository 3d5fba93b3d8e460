//! Requests of senders that aren't trusted: when the sequencer takes them, and what their envelopes open together.
#![tactic(auto)]

mod framing;
pub mod laws;
mod outline;
mod told_tree;

pub use framing::{framed, framed_outline};
pub use outline::{Outline, read_outline};
pub use told_tree::{ToldTree, read_told_tree, tree_in};

//! The submissions of a round by clients in threads of their own, beside lanes that do the participants' work.
#![tactic(auto)]

mod clients;
mod merging;
mod retired;
mod retiring;
mod round_input;
mod submitting;

pub use client_threads::Workers;
pub use submitting::{Answered, submit_shared};

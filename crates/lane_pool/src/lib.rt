//! Lanes: threads that take turns at shared work, and the gate that a turn passes.
#![tactic(auto)]

mod gate;
mod lane;
mod lanes;
mod stop;
mod turns;

pub use gate::{FreeGate, Gate};
pub use lane::Lane;
pub use lanes::run_lanes;
pub use turns::Turn;

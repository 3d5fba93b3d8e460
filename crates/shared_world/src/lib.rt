//! The world of a synchroniser put behind locks, for as long as threads share it: rounds begin, clients come and go, and the parts
//! come back as a world.
#![tactic(auto)]

mod synchroniser;

pub use synchroniser::{LEDGER_PARTS, Synchroniser};

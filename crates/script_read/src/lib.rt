//! Scripts as they are read from JSON, with the first fault of the walk.
#![tactic(auto)]

mod arg;
mod command;
mod draft;
mod host;
mod input;
pub mod laws;
mod observing;
mod participant;
mod raws;
mod read;
mod reference;
mod round;
mod rounds;
mod script;
mod script_fault;
mod submission;
mod times;
mod tree;
mod triggers;
mod vetting;
mod what;

pub use read::read_script;
pub use round::{Round, RoundList};
pub use script::Script;
pub use script_fault::ScriptFault;

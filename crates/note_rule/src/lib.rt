//! What the rules of the program answer.
#![tactic(auto)]

mod flash;

pub use flash::flash_on_go;

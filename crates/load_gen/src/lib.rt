//! Scripts that are generated from a number: participants that owe one another, and transfer their debts.
#![tactic(auto)]

mod choices;
mod forms;
mod iou;
mod laws;
mod names;
mod numbers;
mod packages;
mod script;
mod submissions;
mod topology;

pub use iou::iou_package;
pub use laws::{generated_scripts_are_accepted, numbers_are_those_of_the_format};
pub use packages::generated_packages;
pub use script::generate;
pub use submissions::{generated_debts, generated_transfers};
pub use topology::generated_topology;

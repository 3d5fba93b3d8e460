//! The check of packages: kinds and names, with the first fault.
#![tactic(auto)]

mod check_fault;
mod check_kind;
mod declarations;
mod exercise;
mod expressions;
mod faults;
pub mod laws;
mod nameable;
mod operand_kinds;
mod packages;
mod scope;
mod signature;
mod statements;
mod stop;

pub use check_fault::CheckFault;
pub use check_kind::CheckKind;
pub use packages::check;

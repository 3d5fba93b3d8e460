//! Packages as they are read from JSON, with the first fault of the walk.
#![tactic(auto)]

mod binary;
mod choice;
mod expr;
mod expr_members;
mod field_decls;
mod kinds;
mod literal;
mod operator;
mod package;
mod parties;
mod simple_stmt;
mod stmt;
mod template;

pub use expr::read_expr;
pub use literal::{is_parties_form, is_party_form, read_parties_value, read_party_value};
pub use package::read_package;
pub use parties::{is_hosted, read_parties, read_party};

//! The meaning of the contract language: values of expressions, what a choice's body does next, and who is involved in an action.
#![tactic(auto)]

mod binding;
mod bindings;
mod body;
mod bound_fields;
mod bound_name;
mod call_parts;
mod checked;
mod choice_parties;
mod contract_parties;
mod eval_fault;
mod evaluate;
mod expr_copy;
mod expr_parts;
mod forms;
mod given_names;
mod held_value;
mod holding;
mod kinds;
pub mod laws;
mod native;
mod native_list;
mod note;
mod operator;
mod operators;
mod owner;
mod parties;
mod role_fault;
mod role_sets;
mod run;
mod same;
mod short_text;
mod spelling;

pub use binding::Binding;
pub use bindings::Bindings;
pub use body::{next_of_choice, next_step};
pub use bound_name::BoundName;
pub use checked::{Checked, choice_named, package_named, template_named};
pub use choice_parties::ChoiceParties;
pub use contract_parties::ContractParties;
pub use eval_fault::EvalFault;
pub use evaluate::{eval_expr, eval_list, eval_test};
pub use kinds::{call_has_kinds, has_kinds, have_kinds, kind_of};
pub use ledger_model::{ChildResult, ChildResultList, ChoiceCall, Roles, Step};
pub use native::Native;
pub use native_list::{NativeList, next_by};
pub use note::{archive_name, flash_choice, note_name, note_package, note_template_name};
pub use owner::Owner;
pub use parties::{
    is_consuming_call, observers_of_choice, parties_of_choice, parties_of_contract,
    parties_of_created,
};
pub use role_fault::RoleFault;
pub use role_sets::roles;

//! Reading a JSON value, up to its first fault: names, numbers, texts, members and lists, each at its place.
//!
//! Readers and their definitions are named alike. `read_x(value, at)` reads what a value says, after the definition `x_of`;
//! `x_in(value, at, name)` reads what stands in a member of an object, after the definition `x_in`, whose place is the
//! object's. `x_if` is a member that may be absent, by cases; `x_or` one for which something else stands where it is
//! absent. `x_named` is what a word names, where it names something.
#![tactic(auto)]

mod chain;
mod json;
mod laws;
mod limit;
mod limits;
mod list;
mod members;
mod place;
mod scalar;
mod texts;
mod walk_fault;

pub use json::read_json;
pub use laws::limits_are_those_of_scripts;
pub use limit::Limit;
pub use limits::{
    ACT_AS, ADVANCE, CHOICES, COMMANDS, DRAFT_DEPTH, DRAFTS, EXPRESSION_DEPTH, FIELDS, LABEL_STEPS,
    LEDGER_TIME, PACKAGES, PARAMETERS, PARTICIPANTS, PARTIES, RAW_BYTES, RAWS, ROUNDS,
    RULE_NAME_BYTES, RULES, STATEMENTS, SUBMISSIONS, TEMPLATES, TEXT_BYTES, TIMEOUT,
};
pub use list::{
    read_counted, read_each, read_few, read_few_items, read_items, read_list, read_two,
};
pub use members::{fits, member, name_in, truth_in, truth_or};
pub use place::Place;
pub use scalar::{check_limit, read_integer, read_name, read_truth, shape};
pub use texts::{parts_round, read_template_name, read_text, template_in};
pub use walk_fault::WalkFault;

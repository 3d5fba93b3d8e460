//! The program without its edge: from words and a source to what they ask for in a sink, a status, and a line that says why.
#![tactic(auto)]

mod answers;
mod audit_job;
mod finish;
mod given_script;
mod job_text;
pub mod laws;
mod lines;
mod log_copy;
mod platform;
mod played;
mod raws;
mod rounds;
mod run_plan;
mod run_remains;
mod script_run;
mod second_part;
mod seen;
mod told_run;
mod top_call;
mod views;
mod words;
mod writing;

pub use finish::{Finish, ended};
pub use lines::line;
pub use platform::Platform;
pub use played::{Played, RunRecord};
pub use run_plan::RunPlan;
pub use run_remains::RunRemains;
pub use script_run::run_script;
pub use top_call::run;
pub use words::{status_without_words, words_after_name};

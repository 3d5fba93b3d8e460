//! Reports as they were written, read line by line, with the first line that is none.
#![tactic(auto)]

mod active;
mod decision;
mod entries;
mod entry;
mod expected;
mod finals;
mod fired;
mod hosts;
mod lane;
mod lines;
mod message;
mod outcome;
mod report;
mod report_fault;
mod results;
mod scan;
mod submit_result;
mod summary;
mod withheld;
mod words;

pub use active::{Active, ActiveList};
pub use decision::{Decision, Ending};
pub use entry::{Entry, EntryList};
pub use expected::Expected;
pub use fired::{Fired, FiredList};
pub use hosts::Hosts;
pub use lane::{Lane, LaneSet};
pub use message::Message;
pub use outcome::{Outcome, OutcomeList};
pub use report::{Report, read_report};
pub use report_fault::ReportFault;
pub use submit_result::{Answer, SubmitResult, SubmitResultList};
pub use summary::{Summary, SummaryList};
pub use withheld::{Withheld, WithheldList};

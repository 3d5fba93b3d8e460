//! One page that shows a run place by place: who knew what, and when. HTML with all that it needs.
#![tactic(auto)]

mod chart;
mod chart_rows;
mod contracts;
mod head;
mod html;
mod knowledge;
mod lane_names;
mod lanes;
mod mediation;
mod page;
mod refusals;
mod requests;
mod rules;
mod says;
mod script;
mod shown;
mod stay;
mod story;
mod style;
mod teller;
mod verdicts;
mod words;

pub use html::Html;
pub use page::page_of;

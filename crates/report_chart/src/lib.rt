//! Reports as sequence charts: a lane for each participant, one for the log and one for the mediator, and a row for each entry.
#![tactic(auto)]

mod chart;
mod counts;
mod entry_rows;
mod heading;
mod layout;
mod limits;
mod lists;
mod outcomes;
mod sheet;
mod shortened;

pub use chart::chart_of;

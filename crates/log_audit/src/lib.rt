//! The audit of a written log: whether bytes are a dump of a log that a synchroniser may have written, whoever wrote it.
#![tactic(auto)]

mod answer;
mod auditing;
mod dump;
mod inboxes;
pub mod laws;
mod line;
mod owing;
mod reading;

pub use answer::Audit;
pub use auditing::audit;
pub use dump::{Dump, read_dump};
pub use line::audit_line;

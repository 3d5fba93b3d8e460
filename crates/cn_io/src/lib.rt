//! Where bytes come from and where they go, each with a count of its faults.
#![tactic(auto)]

mod failed;
mod laws;
mod mem_sink;
mod mem_source;
mod read_source;
mod sink;
mod source;
mod sure_sink;
mod sure_source;
mod whole;
mod write_sink;

pub use failed::Failed;
pub use laws::whole_puts_are_one;
pub use mem_sink::MemSink;
pub use mem_source::MemSource;
pub use read_source::ReadSource;
pub use sink::Sink;
pub use source::Source;
pub use sure_sink::SureSink;
pub use sure_source::SureSource;
pub use whole::{ReadFault, read_all, write_all};
pub use write_sink::WriteSink;

//! Why no report was read.
use crate::expected::Expected;
use std::alloc::AllocError;

/// Why no report was read.
#[derive(Clone, Copy)]
pub enum ReportFault {
    /// At a line, counted from 1, something else was expected.
    Line { number: u64, expected: Expected },
    /// No memory was found.
    Memory,
}

impl From<AllocError> for ReportFault {
    fn from(_error: AllocError) -> ReportFault {
        ReportFault::Memory
    }
}

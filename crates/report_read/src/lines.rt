//! The lines of a report.
use crate::expected::Expected;
use crate::report_fault::ReportFault;

/// The lines of a report that are left to read, and the number of the line before them.
#[derive(Drop)]
pub(crate) struct Lines<'t> {
    rest: &'t str,
    number: u64,
}

impl<'t> Lines<'t> {
    pub(crate) fn new(text: &'t str) -> Lines<'t> {
        Lines {
            rest: text,
            number: 0,
        }
    }

    /// The next line, without its line feed. Err: no line is left, and `expected` was to come, or the last line has no line feed.
    pub(crate) fn next(&mut self, expected: Expected) -> Result<&'t str, ReportFault> {
        self.number = self.number.saturating_add(1);
        match self.rest.split_once('\n') {
            Some((line, rest)) => {
                self.rest = rest;
                Ok(line)
            }
            None => Err(self.fault(if self.rest.is_empty() {
                expected
            } else {
                Expected::WholeLine
            })),
        }
    }

    /// Whether the next line begins so.
    pub(crate) fn begins_with(&self, beginning: &str) -> bool {
        self.rest.starts_with(beginning)
    }

    /// Whether no line is left.
    pub(crate) fn is_empty(&self) -> bool {
        self.rest.is_empty()
    }

    /// A fault at the line that was taken last.
    pub(crate) fn fault(&self, expected: Expected) -> ReportFault {
        ReportFault::Line {
            number: self.number,
            expected,
        }
    }

    /// A fault at the line behind the one that was taken last.
    pub(crate) fn fault_behind(&self, expected: Expected) -> ReportFault {
        ReportFault::Line {
            number: self.number.saturating_add(1),
            expected,
        }
    }

    /// Passes on what was read of the line that was taken last. Where it isn't what was expected, the fault gets the line's number.
    pub(crate) fn read<T: Drop>(&self, read: Result<T, Expected>) -> Result<T, ReportFault> {
        match read {
            Ok(value) => Ok(value),
            Err(expected) => Err(self.fault(expected)),
        }
    }
}

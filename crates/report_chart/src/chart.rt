//! From the bytes of a report to its chart.
use crate::sheet::draw;
use ledger_terms::Text;
use report_read::{Expected, ReportFault, read_report};
use std::alloc::Global;
use std::str;
use svg_text::drawable;

/// The chart of the report that the bytes spell, as SVG. A character that XML hasn't is drawn as U+FFFD. Err: the line of the first byte that isn't
/// UTF-8, or else the first line that isn't as the report's format has it; or want of memory.
pub fn chart_of(alloc: Global, bytes: &[u8]) -> Result<Text, ReportFault> {
    let text = text_of(bytes)?;
    let text = drawable(alloc, text)?;
    let report = read_report(alloc, text.as_str())?;
    Ok(draw(alloc, &report)?)
}

/// The bytes as a text. Err: the line in which the first byte that isn't UTF-8 stands.
fn text_of(bytes: &[u8]) -> Result<&str, ReportFault> {
    match str::from_utf8(bytes) {
        Ok(text) => Ok(text),
        Err(fault) => {
            let valid = bytes.get(..fault.valid_up_to()).unwrap_or(&[]);
            let feeds = valid.iter().filter(|byte| **byte == b'\n').count();
            Err(ReportFault::Line {
                number: (feeds as u64).saturating_add(1),
                expected: Expected::Utf8,
            })
        }
    }
}

//! Reports.
use crate::active::ActiveList;
use crate::entries::read_entries;
use crate::entry::EntryList;
use crate::expected::Expected;
use crate::finals::{Finals, read_finals};
use crate::fired::FiredList;
use crate::hosts::Hosts;
use crate::lines::Lines;
use crate::outcome::OutcomeList;
use crate::report_fault::ReportFault;
use crate::results::{read_fired, read_outcomes, read_results};
use crate::submit_result::SubmitResultList;
use crate::summary::SummaryList;
use crate::withheld::WithheldList;
use std::alloc::Global;

/// A report that was read: its lines by kind, whose words borrow from its text.
#[derive(Drop)]
pub struct Report<'t> {
    pub hosts: Hosts<'t>,
    pub entries: EntryList<'t>,
    pub results: SubmitResultList<'t>,
    pub fired: FiredList<'t>,
    pub outcomes: OutcomeList<'t>,
    pub summaries: SummaryList,
    pub withheld: WithheldList,
    pub actives: ActiveList<'t>,
}

/// The text read as a report (docs/FORMATS.md, 'The report'). Err: its first line that isn't as the format has it, with what was expected there, or
/// want of memory.
pub fn read_report<'t>(alloc: Global, text: &'t str) -> Result<Report<'t>, ReportFault> {
    let hosts = Hosts::of(alloc, text)?;
    let mut lines = Lines::new(text);
    let entries = read_entries(alloc, &mut lines, &hosts)?;
    let results = read_results(alloc, &mut lines, &hosts)?;
    let fired = read_fired(alloc, &mut lines)?;
    let outcomes = read_outcomes(alloc, &mut lines, &hosts)?;
    let finals = read_finals(alloc, &mut lines, &hosts)?;
    read_end(&mut lines)?;
    let Finals {
        summaries,
        withheld,
        actives,
    } = finals;
    Ok(Report {
        hosts,
        entries,
        results,
        fired,
        outcomes,
        summaries,
        withheld,
        actives,
    })
}

/// The last line, with nothing behind it.
fn read_end(lines: &mut Lines<'_>) -> Result<(), ReportFault> {
    if lines.next(Expected::ParticipantOrEnd)? != "end" {
        return Err(lines.fault(Expected::ParticipantOrEnd));
    }
    if lines.is_empty() {
        return Ok(());
    }
    Err(lines.fault_behind(Expected::NothingMore))
}

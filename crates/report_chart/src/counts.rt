//! What a report has, counted.
use report_read::{Answer, Ending, Report, SubmitResult};
use std::alloc::{AllocError, Global};

/// How many entries a report has, how many requests, by how they ended, and how many submissions were refused.
#[derive(Clone, Copy)]
pub struct Counts {
    pub entries: usize,
    pub requests: usize,
    pub approved: usize,
    pub rejected: usize,
    pub timed_out: usize,
    pub expired: usize,
    pub undecided: usize,
    pub refused: usize,
}

impl Counts {
    /// Counts the entries, the requests by their outcomes, and the refused submissions of a report.
    pub fn of(report: &Report<'_>) -> Counts {
        Counts {
            entries: report.entries.len(),
            requests: report.outcomes.len(),
            approved: ending_count(report, Ending::Approved),
            rejected: ending_count(report, Ending::Rejected),
            timed_out: ending_count(report, Ending::TimedOut),
            expired: ending_count(report, Ending::Expired),
            undecided: ending_count(report, Ending::Undecided),
            refused: report
                .results
                .as_slice()
                .iter()
                .filter(|answered| is_refused(answered))
                .count(),
        }
    }
}

/// How many requests ended so.
fn ending_count(report: &Report<'_>, ending: Ending) -> usize {
    let mut count = 0usize;
    for outcome in report.outcomes.as_slice() {
        let decision = outcome.decision;
        if decision.ending == ending {
            count = count.saturating_add(1);
        }
    }
    count
}

/// Whether a submission was refused, so that no request of it was sent.
pub fn is_refused(answered: &SubmitResult<'_>) -> bool {
    match answered.answer {
        Answer::Refused(_) => true,
        Answer::Sent(_) => false,
    }
}

/// The title of the picture, with the numbers of entries and of requests.
pub fn title_of(alloc: Global, counts: &Counts) -> Result<String, AllocError> {
    let Counts {
        entries,
        requests,
        ..
    } = counts;
    format!(in alloc; "The log of a run: entries {entries}, requests {requests}")
}

/// The line below the title, which is the picture's description too: how many requests ended how, and how many submissions were refused.
pub fn endings_of(alloc: Global, counts: &Counts) -> Result<String, AllocError> {
    let Counts {
        approved,
        rejected,
        timed_out,
        ..
    } = counts;
    let decided = format!(in alloc;
        "Approved {approved}, rejected {rejected}, timed out {timed_out}"
    )?;
    let Counts {
        expired,
        undecided,
        refused,
        ..
    } = counts;
    format!(in alloc;
        "{decided}, expired {expired}, undecided {undecided}; submissions refused {refused}"
    )
}

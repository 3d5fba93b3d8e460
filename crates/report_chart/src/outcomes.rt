//! What is known elsewhere in the report of a request.
use report_read::{Answer, Decision, Ending, LaneSet, Message, Report};
use svg_text::Mark;

/// What became of the request at a place. None: the report has no outcome for it.
pub fn outcome_at<'t>(report: &Report<'t>, place: u64) -> Option<Decision<'t>> {
    for outcome in report.outcomes.as_slice() {
        if outcome.place == place {
            return Some(outcome.decision);
        }
    }
    None
}

/// The round whose submission sent the request at a place. None: no result names it, as for a raw request.
pub fn round_at(report: &Report<'_>, place: u64) -> Option<u64> {
    for result in report.results.as_slice() {
        if let Answer::Sent(sent) = result.answer {
            if sent == place {
                return Some(result.round);
            }
        }
    }
    None
}

/// The participants of which the report says that the request at a place is withheld from them.
pub fn withheld_at(report: &Report<'_>, place: u64) -> LaneSet {
    let mut lanes = LaneSet::none();
    for withheld in report.withheld.as_slice() {
        if withheld.place == place {
            lanes.insert(withheld.participant);
        }
    }
    lanes
}

/// The participants that received the request at a place; all of them where the report has no request there.
pub fn recipients_at(report: &Report<'_>, place: u64) -> LaneSet {
    if let Some(entry) = report.entries.get(place as usize) {
        if let Message::Request { recipients, .. } = entry.message {
            return recipients;
        }
    }
    LaneSet::first(report.hosts.len())
}

/// The mark that is drawn beside a request which ended so.
pub fn mark_of(ending: Ending) -> Mark {
    match ending {
        Ending::Approved => Mark::Approved,
        Ending::Rejected => Mark::Rejected,
        Ending::TimedOut => Mark::TimedOut,
        Ending::Expired => Mark::Expired,
        Ending::Undecided => Mark::Undecided,
    }
}

//! The lines of what became of the requests of a log. After want of memory nothing is said of the text that they were to be put into.
ghost use Rattle.std.specs.Prelude.{◌≡◌, ◌++◌, OnOk, string_bytes, is_some};
ghost use Rattle.canton_model.specs.Log.{request_of, decision_time_of};
ghost use Rattle.canton_model.specs.Timeline.{timeline_of, outcome_of};
ghost use Rattle.report_text.specs.Outcomes.{outcome_text, outcome_line, outcome_lines};

use crate::entries::put_decision;
use crate::outcomes::Outcomes;
use crate::values::put_number;
use canton_model::{EntryList, Message};
use ledger_terms::Topology;
use std::alloc::{AllocError, Global};

/// Whether the message of an entry is a request, of which the report then tells the outcome.
pub fn is_request(message: &Message) -> bool
    ensures { result ≡ is_some (request_of message.now) }
{
    match message {
        Message::Request(_) => true,
        _ => false,
    }
}

fn put_outcome(
    out: &mut String,
    topology: &Topology,
    outcomes: &Outcomes<'_>,
    place: usize,
) -> Result<(), AllocError>
    ensures { OnOk result (string_bytes out.new ≡ string_bytes out.old ++ outcome_text topology.now.hosts
        (outcome_of (timeline_of outcomes.now) place (decision_time_of topology.now.params outcomes.now place))) }
{
    match outcomes.verdict(place as u64) {
        Some(decision) => put_decision(out, &topology.hosts, decision),
        None => out.push_str(if outcomes.has_passed(place, &topology.params) {
            "expired"
        } else {
            "undecided"
        }),
    }
}

fn put_outcome_line(
    out: &mut String,
    topology: &Topology,
    outcomes: &Outcomes<'_>,
    place: usize,
) -> Result<(), AllocError>
    ensures { OnOk result (string_bytes out.new ≡ string_bytes out.old ++ outcome_line topology.now outcomes.now place) }
{
    out.push_str("outcome ")?;
    put_number(out, place as u64)?;
    out.push_str(" ")?;
    put_outcome(out, topology, outcomes, place)?;
    out.push_str("\n")
}

/// Puts a line at the end of the text for each request of the log, with what became of it over the whole log.
pub fn put_outcomes(
    alloc: Global,
    out: &mut String,
    topology: &Topology,
    log: &EntryList,
) -> Result<(), AllocError>
    ensures { OnOk result (string_bytes out.new ≡ string_bytes out.old ++ outcome_lines topology.now log.now 0 log.now) }
{
    let outcomes = Outcomes::of(alloc, log)?;
    'entries: for (place, entry) in log.as_slice().iter().enumerate() {
        if is_request(&entry.message) {
            put_outcome_line(out, topology, &outcomes, place)?;
        }
    }
    Ok(())
}

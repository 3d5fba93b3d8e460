//! The lines of results, of rules that fired, and of outcomes.
use crate::decision::read_decision;
use crate::expected::Expected;
use crate::fired::{Fired, FiredList};
use crate::hosts::Hosts;
use crate::lines::Lines;
use crate::outcome::{Outcome, OutcomeList};
use crate::report_fault::ReportFault;
use crate::scan::is_instance_as_name;
use crate::submit_result::{Answer, SubmitResult, SubmitResultList};
use crate::words::{Words, is_name, number_of};
use std::alloc::Global;

/// Names of faults that stand alone; `NoRoles` is one more.
const FAULTS: [&str; 14] = [
    "Paused",
    "UnknownTemplate",
    "UnknownChoice",
    "BadArgs",
    "ContractUnknown",
    "Overflow",
    "Assert",
    "Ensure",
    "NoSignatory",
    "TooLarge",
    "TooDeep",
    "TooMany",
    "Unauthorised",
    "TooBig",
];

/// Reads the results of submissions, whose lines come next.
pub(crate) fn read_results<'t>(
    alloc: Global,
    lines: &mut Lines<'t>,
    hosts: &Hosts<'t>,
) -> Result<SubmitResultList<'t>, ReportFault> {
    let mut results = SubmitResultList::new(alloc);
    for _ in 0..u64::MAX {
        if !lines.begins_with("result ") {
            break;
        }
        let line = lines.next(Expected::OutcomeOrParticipant)?;
        let result = lines.read(read_submit_result(line, hosts))?;
        results.push(result)?;
    }
    Ok(results)
}

fn read_submit_result<'t>(line: &'t str, hosts: &Hosts<'t>) -> Result<SubmitResult<'t>, Expected> {
    let mut words = Words::of(line);
    words.literal("result", Expected::OutcomeOrParticipant)?;
    let round = words.number(Expected::Round)?;
    let participant = words.participant(hosts)?;
    let command = words.name(Expected::Command)?;
    let answer = read_answer(&mut words)?;
    words.end()?;
    Ok(SubmitResult {
        round,
        participant,
        command,
        answer,
    })
}

fn read_answer<'t>(words: &mut Words<'t>) -> Result<Answer<'t>, Expected> {
    match words.next() {
        Some("sent") => {
            let place = words.number(Expected::Answer)?;
            Ok(Answer::Sent(place))
        }
        Some("refused") => match words.rest() {
            Some(fault) if is_fault(fault) => Ok(Answer::Refused(fault)),
            _ => Err(Expected::Fault),
        },
        _ => Err(Expected::Answer),
    }
}

/// Whether a text is the name of a fault with the words that belong behind it.
fn is_fault(text: &str) -> bool {
    let mut words = Words::of(text);
    let is_known = match words.next() {
        Some("NotHosted") => words.next().is_some_and(is_name),
        Some("Duplicate") => is_number(words.next()),
        Some("LogFull") => is_number(words.next()) && is_number(words.next()),
        Some(name) => name == "NoRoles" || FAULTS.iter().any(|fault| *fault == name),
        None => false,
    };
    is_known && words.end().is_ok()
}

fn is_number(word: Option<&str>) -> bool {
    match word {
        Some(word) => number_of(word).is_some(),
        None => false,
    }
}

/// Reads which rules fired, whose lines come next.
pub(crate) fn read_fired<'t>(
    alloc: Global,
    lines: &mut Lines<'t>,
) -> Result<FiredList<'t>, ReportFault> {
    let mut fired = FiredList::new(alloc);
    for _ in 0..u64::MAX {
        if !lines.begins_with("fired ") {
            break;
        }
        let line = lines.next(Expected::OutcomeOrParticipant)?;
        let one = lines.read(read_one_fired(line))?;
        fired.push(one)?;
    }
    Ok(fired)
}

fn read_one_fired(line: &str) -> Result<Fired<'_>, Expected> {
    let mut words = Words::of(line);
    words.literal("fired", Expected::OutcomeOrParticipant)?;
    let round = words.number(Expected::Round)?;
    let rule = words.name(Expected::Rule)?;
    match words.rest() {
        Some(words) if is_instance_as_name(words) => Ok(Fired { round, rule, words }),
        _ => Err(Expected::Fired),
    }
}

/// Reads the outcomes of requests, whose lines come next.
pub(crate) fn read_outcomes<'t>(
    alloc: Global,
    lines: &mut Lines<'t>,
    hosts: &Hosts<'t>,
) -> Result<OutcomeList<'t>, ReportFault> {
    let mut outcomes = OutcomeList::new(alloc);
    for _ in 0..u64::MAX {
        if !lines.begins_with("outcome ") {
            break;
        }
        let line = lines.next(Expected::OutcomeOrParticipant)?;
        let outcome = lines.read(read_outcome(line, hosts))?;
        outcomes.push(outcome)?;
    }
    Ok(outcomes)
}

fn read_outcome<'t>(line: &'t str, hosts: &Hosts<'t>) -> Result<Outcome<'t>, Expected> {
    let mut words = Words::of(line);
    words.literal("outcome", Expected::OutcomeOrParticipant)?;
    let place = words.number(Expected::Request)?;
    match words.rest() {
        Some(decision) => Ok(Outcome {
            place,
            decision: read_decision(decision, hosts, true)?,
        }),
        None => Err(Expected::Decision),
    }
}

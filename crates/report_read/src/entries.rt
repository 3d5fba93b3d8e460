//! The lines of entries.
use crate::decision::{is_reason, read_decision};
use crate::entry::{Entry, EntryList};
use crate::expected::Expected;
use crate::hosts::Hosts;
use crate::lane::LaneSet;
use crate::lines::Lines;
use crate::message::Message;
use crate::report_fault::ReportFault;
use crate::words::{Words, is_path};
use ledger_terms::limits::MOST_PARTICIPANTS;
use std::alloc::Global;

/// The number of entries, and a line for each.
pub(crate) fn read_entries<'t>(
    alloc: Global,
    lines: &mut Lines<'t>,
    hosts: &Hosts<'t>,
) -> Result<EntryList<'t>, ReportFault> {
    let line = lines.next(Expected::EntryCount)?;
    let count = lines.read(read_count(line))?;
    let mut entries = EntryList::new(alloc);
    for place in 0..count {
        let line = lines.next(Expected::Entry)?;
        let entry = lines.read(read_entry(line, place, hosts))?;
        entries.push(entry)?;
    }
    Ok(entries)
}

fn read_count(line: &str) -> Result<u64, Expected> {
    let mut words = Words::of(line);
    words.literal("entries", Expected::EntryCount)?;
    let count = words.number(Expected::EntryCount)?;
    words.end()?;
    Ok(count)
}

fn read_entry<'t>(line: &'t str, place: u64, hosts: &Hosts<'t>) -> Result<Entry<'t>, Expected> {
    let mut words = Words::of(line);
    if words.number(Expected::Place)? != place {
        return Err(Expected::Place);
    }
    let time = words.number(Expected::Time)?;
    let message = read_message(&mut words, hosts)?;
    words.end()?;
    Ok(Entry {
        place,
        time,
        message,
        line,
    })
}

fn read_message<'t>(words: &mut Words<'t>, hosts: &Hosts<'t>) -> Result<Message<'t>, Expected> {
    match words.next() {
        Some("request") => read_request(words, hosts),
        Some("response") => read_response(words, hosts),
        Some("verdict") => read_verdict(words, hosts),
        Some("tick") => Ok(Message::Tick),
        _ => Err(Expected::Message),
    }
}

fn read_request<'t>(words: &mut Words<'t>, hosts: &Hosts<'t>) -> Result<Message<'t>, Expected> {
    let sender = words.participant(hosts)?;
    let command = words.name(Expected::Command)?;
    words.literal("to", Expected::Recipients)?;
    let recipients = read_recipients(words, hosts)?;
    Ok(Message::Request {
        sender,
        command,
        recipients,
    })
}

/// At least one recipient.
fn read_recipients<'t>(words: &mut Words<'t>, hosts: &Hosts<'t>) -> Result<LaneSet, Expected> {
    let mut recipients = LaneSet::none();
    recipients.insert(words.participant(hosts)?);
    for _ in 1..MOST_PARTICIPANTS {
        match words.next() {
            None => break,
            Some(name) => match hosts.lane_of(name) {
                Some(lane) => recipients.insert(lane),
                None => return Err(Expected::Participant),
            },
        }
    }
    Ok(recipients)
}

fn read_response<'t>(words: &mut Words<'t>, hosts: &Hosts<'t>) -> Result<Message<'t>, Expected> {
    let from = words.participant(hosts)?;
    words.literal("for", Expected::Request)?;
    let request = words.number(Expected::Request)?;
    let views = match words.rest() {
        Some(views) if views.split(' ').all(is_view) => views,
        _ => return Err(Expected::Views),
    };
    let all_approve = views.split(' ').all(|view| view.ends_with("=approve"));
    Ok(Message::Response {
        from,
        request,
        views,
        all_approve,
    })
}

/// Whether a word is a view's path with a verdict.
fn is_view(word: &str) -> bool {
    match word.split_once('=') {
        Some((path, verdict)) => is_path(path) && (verdict == "approve" || is_reason(verdict)),
        None => false,
    }
}

fn read_verdict<'t>(words: &mut Words<'t>, hosts: &Hosts<'t>) -> Result<Message<'t>, Expected> {
    words.literal("for", Expected::Request)?;
    let request = words.number(Expected::Request)?;
    match words.rest() {
        Some(decision) => Ok(Message::Verdict {
            request,
            decision: read_decision(decision, hosts, false)?,
        }),
        None => Err(Expected::Decision),
    }
}

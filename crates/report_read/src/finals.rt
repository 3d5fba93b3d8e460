//! The lines of what each participant knows.
use crate::active::{Active, ActiveList};
use crate::expected::Expected;
use crate::hosts::Hosts;
use crate::lane::Lane;
use crate::lines::Lines;
use crate::report_fault::ReportFault;
use crate::scan::{is_action, is_instance, level_of};
use crate::summary::{Summary, SummaryList};
use crate::withheld::{Withheld, WithheldList};
use crate::words::Words;
use std::alloc::Global;

/// What each participant knows, the requests that are withheld from it, and the contracts that are active for it.
#[derive(Drop)]
pub(crate) struct Finals<'t> {
    pub summaries: SummaryList,
    pub withheld: WithheldList,
    pub actives: ActiveList<'t>,
}

/// Reads the lines of each participant, in the order of the report: its clean place and its base, what is withheld from it, its commits and its
/// active contracts.
pub(crate) fn read_finals<'t>(
    alloc: Global,
    lines: &mut Lines<'t>,
    hosts: &Hosts<'t>,
) -> Result<Finals<'t>, ReportFault> {
    let mut summaries = SummaryList::new(alloc);
    let mut withheld = WithheldList::new(alloc);
    let mut actives = ActiveList::new(alloc);
    for at in 0..hosts.len() {
        let lane = Lane(at);
        let line = lines.next(Expected::ParticipantOrEnd)?;
        let mut summary = lines.read(read_summary(line, lane, hosts))?;
        summary.pruned = read_pruned(lines)?;
        summary.withheld = read_withheld(lines, lane, &mut withheld)?;
        read_commits(lines, &mut summary)?;
        summary.actives = read_actives(lines, lane, &mut actives)?;
        summaries.push(summary)?;
    }
    Ok(Finals {
        summaries,
        withheld,
        actives,
    })
}

/// The line of a participant, with its clean place and time. The base and all counts, which the lines below it say, are filled in later.
fn read_summary<'t>(line: &'t str, lane: Lane, hosts: &Hosts<'t>) -> Result<Summary, Expected> {
    let mut words = Words::of(line);
    words.literal("participant", Expected::ParticipantOrEnd)?;
    if words.participant(hosts)? != lane {
        return Err(Expected::Participant);
    }
    words.literal("clean", Expected::Clean)?;
    let clean = words.number(Expected::Clean)?;
    words.literal("time", Expected::Clean)?;
    let time = words.number(Expected::Clean)?;
    words.end()?;
    Ok(Summary {
        participant: lane,
        clean,
        time,
        pruned: None,
        withheld: 0,
        commits: 0,
        actions: 0,
        actives: 0,
    })
}

/// The base that comes next, if the participant restarted.
fn read_pruned(lines: &mut Lines<'_>) -> Result<Option<u64>, ReportFault> {
    if !lines.begins_with("pruned ") {
        return Ok(None);
    }
    let line = lines.next(Expected::ParticipantOrEnd)?;
    let base = lines.read(read_base(line))?;
    Ok(Some(base))
}

fn read_base(line: &str) -> Result<u64, Expected> {
    let mut words = Words::of(line);
    words.literal("pruned", Expected::ParticipantOrEnd)?;
    let base = words.number(Expected::Base)?;
    words.end()?;
    Ok(base)
}

/// Reads the lines that come next of requests withheld from the participant, and gives their number.
fn read_withheld(
    lines: &mut Lines<'_>,
    lane: Lane,
    withheld: &mut WithheldList,
) -> Result<u64, ReportFault> {
    let mut count = 0u64;
    for _ in 0..u64::MAX {
        if !lines.begins_with("withheld ") {
            break;
        }
        let line = lines.next(Expected::ParticipantOrEnd)?;
        let place = lines.read(read_withheld_place(line))?;
        withheld.push(Withheld {
            participant: lane,
            place,
        })?;
        count = count.saturating_add(1);
    }
    Ok(count)
}

fn read_withheld_place(line: &str) -> Result<u64, Expected> {
    let mut words = Words::of(line);
    words.literal("withheld", Expected::ParticipantOrEnd)?;
    let place = words.number(Expected::Withheld)?;
    words.end()?;
    Ok(place)
}

/// Reads the commits that come next with their actions, and counts both.
fn read_commits<'t>(lines: &mut Lines<'t>, summary: &mut Summary) -> Result<(), ReportFault> {
    for _ in 0..u64::MAX {
        if !lines.begins_with("commit ") {
            break;
        }
        let line = lines.next(Expected::ParticipantOrEnd)?;
        lines.read(read_commit(line))?;
        summary.commits = summary.commits.saturating_add(1);
        let actions = read_actions(lines)?;
        summary.actions = summary.actions.saturating_add(actions);
    }
    Ok(())
}

fn read_commit(line: &str) -> Result<(), Expected> {
    let mut words = Words::of(line);
    words.literal("commit", Expected::ParticipantOrEnd)?;
    words.number(Expected::Request)?;
    words.end()
}

/// The number of actions in the lines that come next: the first is a root, and none is more than one level below the one before.
fn read_actions(lines: &mut Lines<'_>) -> Result<u64, ReportFault> {
    let mut count = 0u64;
    let mut before = 0usize;
    for _ in 0..u64::MAX {
        if !lines.begins_with(" ") {
            break;
        }
        let line = lines.next(Expected::Action)?;
        let level = level_of(line);
        if level > before.saturating_add(1) || !is_action(line) {
            return Err(lines.fault(Expected::Action));
        }
        before = level;
        count = count.saturating_add(1);
    }
    Ok(count)
}

/// Reads the lines that come next of active contracts, and gives their number.
fn read_actives<'t>(
    lines: &mut Lines<'t>,
    lane: Lane,
    actives: &mut ActiveList<'t>,
) -> Result<u64, ReportFault> {
    let mut count = 0u64;
    for _ in 0..u64::MAX {
        if !lines.begins_with("active ") {
            break;
        }
        let line = lines.next(Expected::ParticipantOrEnd)?;
        let active = lines.read(read_active(line, lane))?;
        actives.push(active)?;
        count = count.saturating_add(1);
    }
    Ok(count)
}

fn read_active(line: &str, lane: Lane) -> Result<Active<'_>, Expected> {
    let mut words = Words::of(line);
    words.literal("active", Expected::ParticipantOrEnd)?;
    let place = words.number(Expected::Instance)?;
    match words.rest() {
        Some(instance) if is_instance(instance) => Ok(Active {
            participant: lane,
            place,
            instance,
        }),
        _ => Err(Expected::Instance),
    }
}

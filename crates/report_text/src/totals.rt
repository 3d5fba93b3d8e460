//! The summary of a run.
ghost use Rattle.std.specs.Prelude.{◌≡◌, ◌++◌, ℤ, pos, OnOk, IfOk, string_bytes, count_by, decimal, codes};
ghost use Rattle.std.specs.List.{flat_map, zip};
ghost use Rattle.report_text.specs.Totals.{kind_at, kinds_from, is_same, count_line, count_lines, is_refused, is_iou, third_number};
ghost use Rattle.report_text.specs.Totals.{amount_of, amounts_onto, active_total_line, summary_over};

use crate::outcome_lines::is_request;
use crate::outcomes::Outcomes;
use crate::values::put_number;
use canton_model::{Decision, EntryList, Outcome};
use ledger_terms::{
    ActiveRow, ActiveRowList, Host, HostList, Instance, ListOf, TemplateName, Text, Topology, Value,
};
use node_core::{ActiveRowLists, SubmitResult, SubmitResultList};
use std::alloc::{AllocError, Global};

/// How the request at the place ended.
fn outcome_at(topology: &Topology, outcomes: &Outcomes<'_>, place: usize) -> Outcome
    ensures { result ≡ kind_at topology.now outcomes.now place }
{
    match outcomes.verdict(place as u64) {
        Some(Decision::Approved) => Outcome::Approved,
        Some(Decision::Rejected { .. }) => Outcome::Rejected,
        Some(Decision::TimedOut { .. }) => Outcome::TimedOut,
        None => {
            if outcomes.has_passed(place, &topology.params) {
                Outcome::Expired
            } else {
                Outcome::Undecided
            }
        }
    }
}

/// How the requests of the log ended, in order.
fn outcomes_in(
    alloc: Global,
    topology: &Topology,
    log: &EntryList,
) -> Result<ListOf<Outcome>, AllocError>
    ensures { IfOk result (λ kinds. kinds ≡ kinds_from topology.now log.now 0 log.now) }
{
    let outcomes = Outcomes::of(alloc, log)?;
    let mut kinds = ListOf::new(alloc);
    'entries: for (place, entry) in log.as_slice().iter().enumerate() {
        if is_request(&entry.message) {
            kinds.push(outcome_at(topology, &outcomes, place))?;
        }
    }
    Ok(kinds)
}

fn are_same(kind: Outcome, other: Outcome) -> bool
    ensures { result ≡ is_same kind other }
{
    match (kind, other) {
        (Outcome::Approved, Outcome::Approved) => true,
        (Outcome::Rejected, Outcome::Rejected) => true,
        (Outcome::TimedOut, Outcome::TimedOut) => true,
        (Outcome::Expired, Outcome::Expired) => true,
        (Outcome::Undecided, Outcome::Undecided) => true,
        _ => false,
    }
}

fn count_of(outcomes: &[Outcome], kind: Outcome) -> usize
    ensures { result ≡ count_by (λ other. is_same other kind) outcomes.now }
{
    outcomes
        .iter()
        .filter(|other| are_same(**other, kind))
        .count()
}

fn put_count(
    out: &mut String,
    word: &str,
    kind: Outcome,
    outcomes: &[Outcome],
) -> Result<(), AllocError>
    ensures { OnOk result (string_bytes out.new ≡ string_bytes out.old ++ count_line word.now kind outcomes.now) }
{
    out.push_str(word)?;
    out.push_str(" ")?;
    put_number(out, count_of(outcomes, kind) as u64)?;
    out.push_str("\n")
}

fn put_requests(out: &mut String, count: usize) -> Result<(), AllocError>
    ensures { OnOk result (string_bytes out.new ≡ string_bytes out.old ++ codes "requests " ++ decimal count ++ codes "\n") }
{
    write!(out, "requests {count}\n")
}

fn put_counts(out: &mut String, outcomes: &[Outcome]) -> Result<(), AllocError>
    ensures { OnOk result (string_bytes out.new ≡ string_bytes out.old ++ count_lines outcomes.now) }
{
    put_requests(out, outcomes.len())?;
    put_count(out, "approved", Outcome::Approved, outcomes)?;
    put_count(out, "rejected", Outcome::Rejected, outcomes)?;
    put_count(out, "timeout", Outcome::TimedOut, outcomes)?;
    put_count(out, "expired", Outcome::Expired, outcomes)?;
    put_count(out, "undecided", Outcome::Undecided, outcomes)
}

fn was_refused(answer: &SubmitResult) -> bool
    ensures { result ≡ is_refused answer.now }
{
    match answer {
        SubmitResult::Sent { .. } => false,
        SubmitResult::Refused { .. } => true,
    }
}

fn refused_in(results: &SubmitResultList) -> usize
    ensures { result ≡ count_by is_refused results.now }
{
    results
        .as_slice()
        .iter()
        .filter(|answer| was_refused(answer))
        .count()
}

fn names_iou(template: &TemplateName) -> bool
    ensures { result ≡ is_iou template.now }
{
    template.package.as_str() == "Iou" && template.name.as_str() == "Iou"
}

fn third_int(values: &[Value]) -> i64
    ensures { result ≡ third_number values.now }
{
    match values {
        [_, _, Value::Int(number), ..] => *number,
        _ => 0,
    }
}

fn amount_in(contract: &Instance) -> i64
    ensures { result ≡ amount_of contract.now }
{
    if names_iou(&contract.template) {
        third_int(contract.fields.as_slice())
    } else {
        0
    }
}

fn total_of(rows: &[ActiveRow]) -> Result<i128, AllocError>
    ensures { IfOk result (λ total. total ≡ amounts_onto (pos 0) rows.now) }
{
    let mut total: i128 = 0;
    'rows: for row in rows {
        // No memory holds as many contracts as that.
        let Some(sum) = total.checked_add(amount_in(&row.known.instance) as i128) else {
            return Err(AllocError);
        };
        total = sum;
    }
    Ok(total)
}

fn put_active_total(out: &mut String, host: &Host, active: &ActiveRowList) -> Result<(), AllocError>
    ensures { OnOk result (string_bytes out.new ≡ string_bytes out.old ++ active_total_line (host.now, active.now)) }
{
    let name = host.name.as_str();
    let count = active.len();
    let total = total_of(active.as_slice())?;
    write!(out, "active {name} {count} amount {total}\n")
}

fn put_active_totals(
    out: &mut String,
    hosts: &HostList,
    actives: &ActiveRowLists,
) -> Result<(), AllocError>
    ensures { OnOk result (string_bytes out.new ≡ string_bytes out.old ++ flat_map active_total_line (zip hosts.now actives.now)) }
{
    'hosts: for (at, host) in hosts.as_slice().iter().enumerate() {
        if let Some(active) = actives.get(at) {
            put_active_total(out, host, active)?;
        }
    }
    Ok(())
}

/// The summary of a run: how many requests ended how, how many submissions were refused, and of each participant how many contracts are active at its
/// clean place, with the sum of the amounts of those that are an Iou. `actives` has these contracts for each participant, in the order of the topology.
pub fn summary(
    alloc: Global,
    topology: &Topology,
    log: &EntryList,
    results: &SubmitResultList,
    actives: &ActiveRowLists,
) -> Result<Text, AllocError>
    ensures { IfOk result (λ text. text ≡ summary_over topology.now log.now results.now actives.now) }
{
    let mut out = String::new(alloc);
    let outcomes = outcomes_in(alloc, topology, log)?;
    put_counts(&mut out, outcomes.as_slice())?;
    out.push_str("refused ")?;
    put_number(&mut out, refused_in(results) as u64)?;
    out.push_str("\n")?;
    put_active_totals(&mut out, &topology.hosts, actives)?;
    out.push_str("end\n")?;
    Ok(Text::of_string(out))
}

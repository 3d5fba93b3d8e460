//! The lines of the submissions' results. After want of memory nothing is said of the text that they were to be put into.
ghost use Rattle.std.specs.Prelude.{◌≡◌, ◌∷◌, [], ◌++◌, IfOk, OnOk, length, string_bytes, option_copied, slice_get, drop};
ghost use Rattle.std.specs.List.{flat_map, zip};
ghost use Rattle.report_text.specs.Results.{fault_text, answer_text, caused_in, of_round, result_line, result_lines, submitted_in};

use crate::entries::put_host;
use crate::fault_names::{command_fault_name, split_fault_name};
use crate::submissions::Submissions;
use crate::values::put_number;
use ledger_terms::{HostList, Submission, SubmissionList};
use node_core::{SubmitFault, SubmitResult};
use std::alloc::AllocError;
use trigger_rules::{Caused, CausedList};

fn put_fault(out: &mut String, fault: &SubmitFault) -> Result<(), AllocError>
    ensures { OnOk result (string_bytes out.new ≡ string_bytes out.old ++ fault_text fault.now) }
{
    match fault {
        SubmitFault::Paused => out.push_str("Paused"),
        SubmitFault::NotHosted { party } => {
            out.push_str("NotHosted ")?;
            out.push_str(party.as_str())
        }
        SubmitFault::Command { fault } => out.push_str(command_fault_name(fault)),
        SubmitFault::Split { fault } => out.push_str(split_fault_name(fault)),
        SubmitFault::Duplicate { place } => {
            out.push_str("Duplicate ")?;
            put_number(out, *place)
        }
        SubmitFault::LogFull { reserved, need } => {
            out.push_str("LogFull ")?;
            put_number(out, *reserved)?;
            out.push_str(" ")?;
            put_number(out, *need)
        }
        SubmitFault::Memory => Ok(()),
    }
}

fn put_answer(out: &mut String, answer: &SubmitResult) -> Result<(), AllocError>
    ensures { OnOk result (string_bytes out.new ≡ string_bytes out.old ++ answer_text answer.now) }
{
    match answer {
        SubmitResult::Sent { place, .. } => {
            out.push_str("sent ")?;
            put_number(out, *place)
        }
        SubmitResult::Refused { fault, .. } => {
            out.push_str("refused ")?;
            put_fault(out, fault)
        }
    }
}

fn put_result(
    out: &mut String,
    hosts: &HostList,
    round: u64,
    submission: &Submission,
    answer: &SubmitResult,
) -> Result<(), AllocError>
    ensures { OnOk result (string_bytes out.new ≡ string_bytes out.old
        ++ result_line hosts.now (record { round = round; submission = submission.now }, answer.now)) }
{
    out.push_str("result ")?;
    put_number(out, round)?;
    out.push_str(" ")?;
    put_host(out, hosts, submission.participant)?;
    out.push_str(" ")?;
    out.push_str(submission.command.as_str())?;
    out.push_str(" ")?;
    put_answer(out, answer)?;
    out.push_str("\n")
}

fn answer_at(answers: &[SubmitResult], at: usize) -> Option<&SubmitResult>
    ensures { option_copied result ≡ slice_get answers.now at }
{
    answers.get(at)
}

/// Puts a line at the end for each submission of a round that has a result; `answers` has these in the order of the submissions.
fn put_submits(
    out: &mut String,
    hosts: &HostList,
    round: u64,
    submissions: &SubmissionList,
    answers: &[SubmitResult],
) -> Result<(), AllocError>
    ensures { OnOk result (string_bytes out.new ≡ string_bytes out.old
        ++ flat_map (result_line hosts.now) (zip (submitted_in round submissions.now) answers.now)) }
{
    'submissions: for (at, submission) in submissions.as_slice().iter().enumerate() {
        if let Some(answer) = answer_at(answers, at) {
            put_result(out, hosts, round, submission, answer)?;
        }
    }
    Ok(())
}

fn answers_after(answers: &[SubmitResult], count: usize) -> &[SubmitResult]
    ensures { result.now ≡ drop count answers.now }
{
    if count < answers.len() {
        &answers[count..]
    } else {
        &[]
    }
}

// Puts the line of what a rule caused, if that was in the round and has a result, and gives the results behind its own.
fn put_one_caused<'a>(
    out: &mut String,
    hosts: &HostList,
    round: u64,
    one: &Caused,
    answers: &'a [SubmitResult],
) -> Result<&'a [SubmitResult], AllocError>
    ensures text { OnOk result (string_bytes out.new ≡ string_bytes out.old
        ++ flat_map (result_line hosts.now) (zip (caused_in round (one.now ∷ [])) answers.now)) }
    ensures rest { IfOk result (λ rest. rest.now ≡ drop (length (of_round round (one.now ∷ []))) answers.now) }
{
    if u64::from(one.round) != round {
        return Ok(answers);
    }
    if let Some(answer) = answer_at(answers, 0) {
        put_result(out, hosts, round, &one.submission, answer)?;
    }
    Ok(answers_after(answers, 1))
}

// Puts a line for each of what rules caused in a round that has a result, and gives the results behind those.
fn put_caused<'a>(
    out: &mut String,
    hosts: &HostList,
    round: u64,
    caused: &CausedList,
    answers: &'a [SubmitResult],
) -> Result<&'a [SubmitResult], AllocError>
    ensures text { OnOk result (string_bytes out.new ≡ string_bytes out.old
        ++ flat_map (result_line hosts.now) (zip (caused_in round caused.now) answers.now)) }
    ensures rest { IfOk result (λ rest. rest.now ≡ drop (length (of_round round caused.now)) answers.now) }
{
    let mut rest = answers;
    'caused: for one in caused.as_slice() {
        rest = put_one_caused(out, hosts, round, one, rest)?;
    }
    Ok(rest)
}

/// Puts a line at the end of the text for each submission that has a result: in script order, and behind a round's own those that rules caused in it.
pub fn put_results(
    out: &mut String,
    hosts: &HostList,
    submissions: &Submissions<'_>,
    caused: &CausedList,
) -> Result<(), AllocError>
    ensures { OnOk result (string_bytes out.new ≡ string_bytes out.old
        ++ result_lines hosts.now submissions.now.rounds.now caused.now submissions.now.results.now) }
{
    let mut rest = submissions.results.as_slice();
    'rounds: for (number, round) in submissions.rounds.as_slice().iter().enumerate() {
        put_submits(out, hosts, number as u64, &round.submits, rest)?;
        let behind = answers_after(rest, round.submits.len());
        rest = put_caused(out, hosts, number as u64, caused, behind)?;
    }
    Ok(())
}

//! Judging a log entry by entry.
ghost use Rattle.std.specs.Prelude.{◌≡◌, ◌≤◌, ◌<◌, ◌^◌, [], List, Some, length, option_copied, IfOk, MatchOption, if◌then◌else◌};
ghost use Rattle.world_model.specs.Messages.{Entry as EntryValue};
ghost use Rattle.canton_model.specs.Timeline.{is_approval};
ghost use Rattle.audit_model.specs.Cases.{ShowsFirst, ShowsNone, number_of};
ghost use Rattle.audit_model.specs.Judged.{IsProper, is_approving};
ghost use Rattle.log_judge.specs.Framing.{IsFramingOf};
ghost use Rattle.log_judge.specs.Judgements.{IsJudgement};
ghost use Rattle.log_judge.specs.Known.{KnowsLog, standard_of};

use crate::auditor::Auditor;
use crate::judgement::Judgement;
use crate::participants::Participants;
use audit_model::Why;
use canton_model::{Decision, Entry, EntryList, Message};
use framed_form::Outline;
use std::alloc::{AllocError, Global};

// The case of a number.
fn case_of(number: u8) -> Why
    requires low { 1 ≤ number }
    requires high { number ≤ 8 }
    ensures { number_of result ≡ number }
{
    match number {
        1 => Why::Time,
        2 => Why::Unframed,
        3 => Why::Repeated,
        4 => Why::NoRequest,
        5 => Why::TooLate,
        6 => Why::WrongCheck,
        7 => Why::WrongDecision,
        _ => Why::WrongTrigger,
    }
}

// The first case that an entry shows.
fn first_case<P: Participants>(
    auditor: &Auditor<P>,
    alloc: Global,
    entry: &Entry,
    outline: Option<&Outline>,
) -> Result<Option<Why>, AllocError>
    requires { IsFramingOf (P.reading auditor.now.participants) entry.now.message (option_copied outline) }
    ensures { IfOk result (λ why. (log : List EntryValue)
        → KnowsLog (P.reading auditor.now.participants) (P.params auditor.now.participants) (P.have_read auditor.now.participants) auditor.now log
        → IsProper (standard_of (P.reading auditor.now.participants) (P.params auditor.now.participants) auditor.now) log
        → MatchOption why (ShowsNone (standard_of (P.reading auditor.now.participants) (P.params auditor.now.participants) auditor.now) log entry.now)
        (ShowsFirst (standard_of (P.reading auditor.now.participants) (P.params auditor.now.participants) auditor.now) log entry.now)) }
{
    'cases: for number in 1..9 {
        let why = case_of(number);
        if auditor.shows(alloc, entry, outline, why)? {
            return Ok(Some(why));
        }
    }
    Ok(None)
}

// How many requests an entry approves: one, where it is a verdict that approves.
fn approvals_of(entry: &Entry) -> u64
    ensures exact { result ≡ (if is_approving entry.now then 1 else 0) }
    ensures few { result ≤ 1 }
{
    u64::from(is_approving(entry))
}

// Whether an entry is a verdict that approves.
fn is_approving(entry: &Entry) -> bool
    ensures { result ≡ is_approving entry.now }
{
    match &entry.message {
        Message::Verdict(verdict) => is_approval(&verdict.decision),
        Message::Request(_) => false,
        Message::Response(_) => false,
        Message::Tick => false,
    }
}

fn is_approval(decision: &Decision) -> bool
    ensures { result ≡ is_approval (Some decision.now) }
{
    match decision {
        Decision::Approved => true,
        Decision::Rejected { .. } => false,
        Decision::TimedOut { .. } => false,
    }
}

/// Judges a log by an auditor that has read nothing. The auditor reads entry by entry, and the first that shows a case makes the judgement a no with
/// its place and the case; where none does it is a yes. An error is want of memory alone.
pub fn judge_log<P: Participants>(
    auditor: &mut Auditor<P>,
    alloc: Global,
    entries: EntryList,
) -> Result<Judgement, AllocError>
    requires begun { KnowsLog (P.reading auditor.old.participants) (P.params auditor.old.participants) (P.have_read auditor.old.participants) auditor.old [] }
    requires few { length entries < 2 ^ 63 }
    ensures { IfOk result (IsJudgement (standard_of (P.reading auditor.old.participants) (P.params auditor.old.participants) auditor.old) entries) }
{
    let mut count = 0;
    let mut approved = 0;
    'entries: for entry in entries.into_vec() {
        let outline = auditor.framed_outline(alloc, &entry)?;
        if let Some(why) = first_case(auditor, alloc, &entry, outline.as_ref())? {
            return Ok(Judgement::No { place: count, why });
        }
        let approvals = approvals_of(&entry);
        auditor.read(alloc, entry, outline.as_ref())?;
        count += 1;
        approved += approvals;
    }
    Ok(Judgement::Yes {
        entries: count,
        approved,
    })
}

//! Reading paths, responses and verdicts from the front of bytes, also where they stand inside another format. A fault Left has how many bytes are
//! left at the first field that can't be read; the other fault is want of memory. Participants are numbers from 0 to `most`.
//! After either nothing is said of the bytes that the reader has left.
ghost use Rattle.std.specs.Prelude.{◌≡◌, []};
ghost use Rattle.std.specs.Int.{w16};
ghost use Rattle.wire_form.specs.Formats.{Gives, any_item, items_at, one_more};
ghost use Rattle.wire_form.specs.Fields.{number_at, small_count_at};
ghost use Rattle.message_bytes.specs.Reading.{decision_at, is_past, local_at, numbered_reason_at, participants_at, path_at, reason_at};
ghost use Rattle.message_bytes.specs.Reading.{response_at, tagged_decision_at, tagged_local_at, verdict_at, view_verdict_at, view_verdicts_at};

use canton_model::{
    Decision, LocalVerdict, Reason, Response, Verdict, ViewVerdict, ViewVerdictList,
};
use ledger_terms::limits::MOST_ACTION_DEPTH;
use ledger_terms::{ParticipantId, ParticipantIdList, Path};
use std::alloc::Global;
use wire_form::{Reader, ReaderFault};

/// Reads a path, a count of at most 16 and its steps. The error is Left, with how many bytes are left at the first field that can't be read, or want of
/// memory.
#[tactic(auto, unfolding(crate::specs::Reading::path_at))]
pub fn read_path(reader: &mut Reader<'_>, alloc: Global) -> Result<Path, ReaderFault>
    ensures { Gives (λ x. (x, reader.new)) result (path_at reader.old) }
{
    let count = reader.small_count(MOST_ACTION_DEPTH as u8)?;
    read_steps(reader, alloc, count)
}

fn read_steps(reader: &mut Reader<'_>, alloc: Global, count: u8) -> Result<Path, ReaderFault>
    ensures { Gives (λ x. (x, reader.new)) result (items_at any_item (number_at w16) count [] reader.old) }
{
    let mut steps = Path::new(alloc);
    for _ in 0..count {
        read_next_step(reader, &mut steps)?;
    }
    Ok(steps)
}

fn read_next_step(reader: &mut Reader<'_>, steps: &mut Path) -> Result<(), ReaderFault>
    ensures { Gives (λ x. (steps.new, reader.new)) result (one_more any_item (number_at w16) steps.old reader.old) }
{
    let step = read_u16(reader)?;
    steps.push(step)?;
    Ok(())
}

// A number of two bytes, high first.
#[tactic(auto, unfolding(wire_form::specs::Fields::number_at))]
fn read_u16(reader: &mut Reader<'_>) -> Result<u16, ReaderFault>
    ensures { Gives (λ x. (x, reader.new)) result (number_at w16 reader.old) }
{
    let front = reader.bytes(2)?;
    Ok(u16::from_be_bytes([front[0], front[1]]))
}

#[tactic(auto, unfolding(crate::specs::Reading::reason_at))]
fn read_reason(reader: &mut Reader<'_>) -> Result<Reason, ReaderFault>
    ensures { Gives (λ x. (x, reader.new)) result (reason_at reader.old) }
{
    let here = reader.len();
    let number = reader.byte()?;
    numbered_reason(reader, number, here)
}

#[tactic(auto, unfolding(crate::specs::Reading::numbered_reason_at))]
fn numbered_reason(reader: &mut Reader<'_>, number: u8, here: usize) -> Result<Reason, ReaderFault>
    ensures { Gives (λ x. (x, reader.new)) result (numbered_reason_at number reader.old here) }
{
    match number {
        1 => Ok(Reason::IdMismatch),
        2 => Ok(Reason::NotVetted),
        3 => Ok(Reason::TimeSkew),
        4 => Ok(Reason::Locked),
        5 => Ok(Reason::Inactive),
        6 => Ok(Reason::NotFresh),
        7 => Ok(Reason::Unordered),
        8 => Ok(Reason::NotConformant),
        9 => Ok(Reason::NotAuthorised),
        10 => Ok(Reason::RootMismatch),
        11 => Ok(Reason::ViewMissing),
        12 => Ok(Reason::WrongSender),
        13 => Ok(Reason::WrongCommon),
        _ => Err(ReaderFault::Left(here)),
    }
}

#[tactic(auto, unfolding(crate::specs::Reading::local_at))]
fn read_local(reader: &mut Reader<'_>) -> Result<LocalVerdict, ReaderFault>
    ensures { Gives (λ x. (x, reader.new)) result (local_at reader.old) }
{
    let here = reader.len();
    let tag = reader.byte()?;
    read_tagged_local(reader, tag, here)
}

#[tactic(auto, unfolding(crate::specs::Reading::tagged_local_at))]
fn read_tagged_local(
    reader: &mut Reader<'_>,
    tag: u8,
    here: usize,
) -> Result<LocalVerdict, ReaderFault>
    ensures { Gives (λ x. (x, reader.new)) result (tagged_local_at tag reader.old here) }
{
    match tag {
        0 => Ok(LocalVerdict::Approve),
        1 => {
            let reason = read_reason(reader)?;
            let action = read_u16(reader)?;
            Ok(LocalVerdict::Reject { reason, action })
        }
        _ => Err(ReaderFault::Left(here)),
    }
}

#[tactic(auto, unfolding(crate::specs::Reading::view_verdict_at))]
fn read_view_verdict(reader: &mut Reader<'_>, alloc: Global) -> Result<ViewVerdict, ReaderFault>
    ensures { Gives (λ x. (x, reader.new)) result (view_verdict_at reader.old) }
{
    let view = read_path(reader, alloc)?;
    let verdict = read_local(reader)?;
    Ok(ViewVerdict { view, verdict })
}

#[tactic(auto, unfolding(crate::specs::Reading::view_verdicts_at))]
fn read_view_verdicts(
    reader: &mut Reader<'_>,
    alloc: Global,
) -> Result<ViewVerdictList, ReaderFault>
    ensures { Gives (λ x. (x, reader.new)) result (view_verdicts_at reader.old) }
{
    let count = reader.count(u16::MAX)?;
    read_more_verdicts(reader, alloc, count)
}

fn read_more_verdicts(
    reader: &mut Reader<'_>,
    alloc: Global,
    count: u16,
) -> Result<ViewVerdictList, ReaderFault>
    ensures { Gives (λ x. (x, reader.new)) result (items_at any_item view_verdict_at count [] reader.old) }
{
    let mut verdicts = ViewVerdictList::new(alloc);
    for _ in 0..count {
        read_next_verdict(reader, alloc, &mut verdicts)?;
    }
    Ok(verdicts)
}

fn read_next_verdict(
    reader: &mut Reader<'_>,
    alloc: Global,
    verdicts: &mut ViewVerdictList,
) -> Result<(), ReaderFault>
    ensures { Gives (λ x. (verdicts.new, reader.new)) result (one_more any_item view_verdict_at verdicts.old reader.old) }
{
    let verdict = read_view_verdict(reader, alloc)?;
    verdicts.push(verdict)?;
    Ok(())
}

/// Reads a response of a participant up to `most`. The error is Left, with how many bytes are left at the first field that can't be read, or want of
/// memory.
#[tactic(auto, unfolding(crate::specs::Reading::response_at))]
pub fn read_response(
    reader: &mut Reader<'_>,
    alloc: Global,
    most: u8,
) -> Result<Response, ReaderFault>
    ensures { Gives (λ x. (x, reader.new)) result (response_at most reader.old) }
{
    let from = ParticipantId(reader.small_count(most)?);
    let request = reader.u64()?;
    let verdicts = read_view_verdicts(reader, alloc)?;
    Ok(Response {
        from,
        request,
        verdicts,
    })
}

#[tactic(auto, unfolding(crate::specs::Reading::participants_at))]
fn read_participants(
    reader: &mut Reader<'_>,
    alloc: Global,
    most: u8,
) -> Result<ParticipantIdList, ReaderFault>
    ensures { Gives (λ x. (x, reader.new)) result (participants_at most reader.old) }
{
    let count = reader.small_count(u8::MAX)?;
    read_more_participants(reader, alloc, most, count)
}

fn read_more_participants(
    reader: &mut Reader<'_>,
    alloc: Global,
    most: u8,
    count: u8,
) -> Result<ParticipantIdList, ReaderFault>
    ensures { Gives (λ x. (x, reader.new)) result (items_at is_past (small_count_at most) count [] reader.old) }
{
    let mut participants = ParticipantIdList::new(alloc);
    for _ in 0..count {
        read_next_participant(reader, most, &mut participants)?;
    }
    Ok(participants)
}

// Puts the next participant at the end of those before it, where it stands above them.
fn read_next_participant(
    reader: &mut Reader<'_>,
    most: u8,
    participants: &mut ParticipantIdList,
) -> Result<(), ReaderFault>
    ensures { Gives (λ x. (participants.new, reader.new)) result (one_more is_past (small_count_at most) participants.old reader.old) }
{
    let here = reader.len();
    let participant = reader.small_count(most)?;
    if is_past(participants.as_slice(), participant) {
        participants.push(ParticipantId(participant))?;
        Ok(())
    } else {
        Err(ReaderFault::Left(here))
    }
}

#[tactic(auto, using(crate::proofs::Rising::past_last))]
fn is_past(before: &[ParticipantId], participant: u8) -> bool
    ensures { result ≡ is_past before.now participant }
{
    match before.last() {
        None => true,
        Some(last) => last.0 < participant,
    }
}

#[tactic(auto, unfolding(crate::specs::Reading::decision_at))]
fn read_decision(reader: &mut Reader<'_>, alloc: Global, most: u8) -> Result<Decision, ReaderFault>
    ensures { Gives (λ x. (x, reader.new)) result (decision_at most reader.old) }
{
    let here = reader.len();
    let tag = reader.byte()?;
    read_tagged_decision(reader, alloc, most, tag, here)
}

#[tactic(auto, unfolding(crate::specs::Reading::tagged_decision_at))]
fn read_tagged_decision(
    reader: &mut Reader<'_>,
    alloc: Global,
    most: u8,
    tag: u8,
    here: usize,
) -> Result<Decision, ReaderFault>
    ensures { Gives (λ x. (x, reader.new)) result (tagged_decision_at most tag reader.old here) }
{
    match tag {
        0 => Ok(Decision::Approved),
        1 => {
            let from = ParticipantId(reader.small_count(most)?);
            let view = read_path(reader, alloc)?;
            let reason = read_reason(reader)?;
            Ok(Decision::Rejected { from, view, reason })
        }
        2 => {
            let missing = read_participants(reader, alloc, most)?;
            Ok(Decision::TimedOut { missing })
        }
        _ => Err(ReaderFault::Left(here)),
    }
}

/// Reads a mediator's verdict, which names participants up to `most`. The error is Left, with how many bytes are left at the first field that can't be
/// read, or want of memory.
#[tactic(auto, unfolding(crate::specs::Reading::verdict_at))]
pub fn read_verdict(
    reader: &mut Reader<'_>,
    alloc: Global,
    most: u8,
) -> Result<Verdict, ReaderFault>
    ensures { Gives (λ x. (x, reader.new)) result (verdict_at most reader.old) }
{
    let request = reader.u64()?;
    let decision = read_decision(reader, alloc, most)?;
    Ok(Verdict { request, decision })
}

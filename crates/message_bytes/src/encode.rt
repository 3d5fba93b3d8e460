//! Writing spellings at the end of a buffer. After want of memory the buffer holds a beginning of what was to be written.
ghost use Rattle.std.specs.Prelude.{◌≡◌, ◌++◌, OnOk};
ghost use Rattle.std.specs.Int.{w64, to_be_bytes};
ghost use Rattle.message_bytes.specs.Spelling.{reason_number, spell_decision, spell_local, spell_participant, spell_participants};
ghost use Rattle.message_bytes.specs.Spelling.{spell_path, spell_response, spell_verdict, spell_view_verdict, spell_view_verdicts};
ghost use Rattle.message_bytes.specs.Spellable.{AreSpellable, IsSpellableDecision, IsSpellablePath, IsSpellableResponse};
ghost use Rattle.message_bytes.specs.Spellable.{IsSpellableSet, IsSpellableVerdict, IsSpellableViewVerdict};

use canton_model::{
    Decision, LocalVerdict, Reason, Response, Verdict, ViewVerdict, ViewVerdictList,
};
use ledger_terms::{Bytes, ParticipantId, ParticipantIdList, Path};
use std::alloc::AllocError;
use wire_form::encode_u64;

/// Puts the spelling of a path, which has at most 16 steps, at the end of `out`: a byte of count, and two bytes for each step. The error is want of
/// memory.
pub fn encode_path(path: &Path, out: &mut Bytes) -> Result<(), AllocError>
    requires { IsSpellablePath path.now }
    ensures { OnOk result (out.new ≡ out.old ++ spell_path path.now) }
{
    let steps = path.as_slice();
    out.push(steps.len() as u8)?;
    for step in steps {
        out.extend(&step.to_be_bytes())?;
    }
    Ok(())
}

fn reason_number(reason: Reason) -> u8
    ensures { result ≡ reason_number reason }
{
    match reason {
        Reason::IdMismatch => 1,
        Reason::NotVetted => 2,
        Reason::TimeSkew => 3,
        Reason::Locked => 4,
        Reason::Inactive => 5,
        Reason::NotFresh => 6,
        Reason::Unordered => 7,
        Reason::NotConformant => 8,
        Reason::NotAuthorised => 9,
        Reason::RootMismatch => 10,
        Reason::ViewMissing => 11,
        Reason::WrongSender => 12,
        Reason::WrongCommon => 13,
    }
}

fn encode_local(verdict: LocalVerdict, out: &mut Bytes) -> Result<(), AllocError>
    ensures { OnOk result (out.new ≡ out.old ++ spell_local verdict) }
{
    match verdict {
        LocalVerdict::Approve => out.push(0),
        LocalVerdict::Reject { reason, action } => {
            out.push(1)?;
            out.push(reason_number(reason))?;
            out.extend(&action.to_be_bytes())
        }
    }
}

fn encode_view_verdict(verdict: &ViewVerdict, out: &mut Bytes) -> Result<(), AllocError>
    requires { IsSpellableViewVerdict verdict.now }
    ensures { OnOk result (out.new ≡ out.old ++ spell_view_verdict verdict.now) }
{
    encode_path(&verdict.view, out)?;
    encode_local(verdict.verdict, out)
}

fn encode_view_verdicts(verdicts: &ViewVerdictList, out: &mut Bytes) -> Result<(), AllocError>
    requires { AreSpellable verdicts.now }
    ensures { OnOk result (out.new ≡ out.old ++ spell_view_verdicts verdicts.now) }
{
    let verdicts = verdicts.as_slice();
    out.extend(&(verdicts.len() as u16).to_be_bytes())?;
    for verdict in verdicts {
        encode_view_verdict(verdict, out)?;
    }
    Ok(())
}

/// Puts the spelling of a response at the end of `out`. The error is want of memory.
pub fn encode_response(response: &Response, out: &mut Bytes) -> Result<(), AllocError>
    requires { IsSpellableResponse response.now }
    ensures { OnOk result (out.new ≡ out.old ++ spell_response response.now) }
{
    encode_participant(response.from, out)?;
    encode_place_and_verdicts(response.request, &response.verdicts, out)
}

fn encode_participant(participant: ParticipantId, out: &mut Bytes) -> Result<(), AllocError>
    ensures { OnOk result (out.new ≡ out.old ++ spell_participant participant) }
{
    out.push(participant.0)
}

fn encode_place_and_verdicts(
    place: u64,
    verdicts: &ViewVerdictList,
    out: &mut Bytes,
) -> Result<(), AllocError>
    requires { AreSpellable verdicts.now }
    ensures { OnOk result (out.new ≡ out.old ++ (to_be_bytes w64 place ++ spell_view_verdicts verdicts.now)) }
{
    encode_u64(place, out)?;
    encode_view_verdicts(verdicts, out)
}

fn encode_participants(participants: &ParticipantIdList, out: &mut Bytes) -> Result<(), AllocError>
    requires { IsSpellableSet participants.now }
    ensures { OnOk result (out.new ≡ out.old ++ spell_participants participants.now) }
{
    let participants = participants.as_slice();
    out.push(participants.len() as u8)?;
    for participant in participants {
        encode_participant(*participant, out)?;
    }
    Ok(())
}

fn encode_decision(decision: &Decision, out: &mut Bytes) -> Result<(), AllocError>
    requires { IsSpellableDecision decision.now }
    ensures { OnOk result (out.new ≡ out.old ++ spell_decision decision.now) }
{
    match decision {
        Decision::Approved => out.push(0),
        Decision::Rejected { from, view, reason } => {
            out.push(1)?;
            out.push(from.0)?;
            encode_path(view, out)?;
            out.push(reason_number(*reason))
        }
        Decision::TimedOut { missing } => {
            out.push(2)?;
            encode_participants(missing, out)
        }
    }
}

/// Puts the spelling of a mediator's verdict at the end of `out`. The error is want of memory.
pub fn encode_verdict(verdict: &Verdict, out: &mut Bytes) -> Result<(), AllocError>
    requires { IsSpellableVerdict verdict.now }
    ensures { OnOk result (out.new ≡ out.old ++ spell_verdict verdict.now) }
{
    encode_u64(verdict.request, out)?;
    encode_decision(&verdict.decision, out)
}

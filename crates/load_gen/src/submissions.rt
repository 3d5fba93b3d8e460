//! What is submitted. `alloc` gives the memory, and the only error is want of it.
ghost use Rattle.std.specs.Prelude.{◌≡◌, ◌<◌, ◌+◌, IfOk};
ghost use Rattle.load_gen.specs.Submissions.{in_turn, submission_of, party_arg, debt_by, debt_label, transfer_of, debts, transfers};

use crate::choices::{iou_template_name, transfer_name};
use crate::names::{numbered, participant_at, party_at};
use crate::numbers::{amount_by, number_after};
use crate::topology::PARTICIPANTS;
use ledger_terms::{
    Arg, ArgList, Command, CommandList, ContractRef, Label, Name, ParticipantId, PartySet, Path,
    Submission, SubmissionList, Value, What,
};
use std::alloc::{AllocError, Global};

/// Who takes a part in a turn.
fn in_turn(turn: u32, step: u32) -> u8
    requires { step < 4 }
    ensures { result ≡ in_turn turn step }
{
    ((u64::from(turn) + u64::from(step)) % u64::from(PARTICIPANTS)) as u8
}

fn submission_of(
    alloc: Global,
    place: u8,
    name: Name,
    command: Command,
) -> Result<Submission, AllocError>
    ensures { IfOk result (λ s. s ≡ submission_of place name command) }
{
    let mut act_as = PartySet::new(alloc);
    act_as.insert(party_at(alloc, place)?)?;
    let mut commands = CommandList::with_room(alloc, 1)?;
    commands.push(command)?;
    Ok(Submission {
        participant: ParticipantId(place),
        command: name,
        act_as,
        ledger_time: None,
        what: What::Commands(commands),
    })
}

fn party_arg(alloc: Global, place: u8) -> Result<Arg, AllocError>
    ensures { IfOk result (λ a. a ≡ party_arg place) }
{
    Ok(Arg::Plain(Value::Party(party_at(alloc, place)?)))
}

/// A debt of an amount by a number.
fn debt_by(alloc: Global, turn: u32, number: u64) -> Result<Submission, AllocError>
    ensures { IfOk result (λ s. s ≡ debt_by turn number) }
{
    let mut fields = ArgList::with_room(alloc, 3)?;
    fields.push(party_arg(alloc, in_turn(turn, 0))?)?;
    fields.push(party_arg(alloc, in_turn(turn, 1))?)?;
    fields.push(Arg::Plain(Value::Int(amount_by(number) as i64)))?;
    let command = Command::Create {
        template: iou_template_name(),
        fields,
    };
    submission_of(
        alloc,
        in_turn(turn, 0),
        numbered(alloc, "c", turn)?,
        command,
    )
}

/// The contract of a debt.
fn debt_label(alloc: Global, turn: u32) -> Result<ContractRef, AllocError>
    ensures { IfOk result (λ r. r ≡ debt_label turn) }
{
    let mut path = Path::with_room(alloc, 1)?;
    path.push(0)?;
    Ok(ContractRef::Label(Label {
        participant: participant_at(alloc, in_turn(turn, 0))?,
        command: numbered(alloc, "c", turn)?,
        path,
    }))
}

fn transfer_of(alloc: Global, turn: u32) -> Result<Submission, AllocError>
    ensures { IfOk result (λ s. s ≡ transfer_of turn) }
{
    let mut args = ArgList::with_room(alloc, 1)?;
    args.push(party_arg(alloc, in_turn(turn, 2))?)?;
    let command = Command::Exercise {
        template: iou_template_name(),
        contract: debt_label(alloc, turn)?,
        choice: transfer_name(),
        args,
    };
    submission_of(
        alloc,
        in_turn(turn, 1),
        numbered(alloc, "t", turn)?,
        command,
    )
}

/// The submissions that create `count` debts, in order. The amount of the first is made of the generator's number after `seed`, and that of each other
/// of the number after the one before.
pub fn generated_debts(alloc: Global, count: u32, seed: u64) -> Result<SubmissionList, AllocError>
    ensures { IfOk result (λ s. s ≡ debts seed count) }
{
    let mut debts = SubmissionList::with_room(alloc, count as usize)?;
    let mut number = seed;
    'turns: for turn in 0..count {
        number = number_after(number);
        debts.push(debt_by(alloc, turn, number)?)?;
    }
    Ok(debts)
}

/// The submissions that transfer `count` debts, in order, each by the one to whom the debt is owed.
pub fn generated_transfers(alloc: Global, count: u32) -> Result<SubmissionList, AllocError>
    ensures { IfOk result (λ s. s ≡ transfers count) }
{
    let mut transfers = SubmissionList::with_room(alloc, count as usize)?;
    'turns: for turn in 0..count {
        transfers.push(transfer_of(alloc, turn)?)?;
    }
    Ok(transfers)
}

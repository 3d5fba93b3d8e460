//! A rule is asked about contracts.
ghost use Rattle.std.specs.Prelude.{◌≡◌, ◌<◌, ◌≤◌, ◌+◌, ◌++◌, ◌∷◌, [], false, length, take, IfOk, OnErr, OnOk};
ghost use Rattle.trigger_rules.specs.Firing.{AsksOne, Fires, caused_by, command_id, contracts_of, has_fired, submission_by};
ghost use Rattle.trigger_rules.specs.Answers.{GivesExercises};
ghost use Rattle.ledger_terms.specs.declared.limits.TheConstants.{MOST_RULE_NAME_BYTES};
ghost use Rattle.trigger_rules.specs.declared.limits.TheConstants.{MOST_FIRES};

use crate::answering::Answering;
use crate::caused::{Caused, CausedList};
use crate::fired::Fired;
use crate::rule::Rule;
use ledger_terms::{
    ActiveRow, ActiveRowList, Command, CommandList, Exact, Known, Name, PartySet, Submission, What,
};
use std::alloc::{AllocError, Global};

/// A rule that is asked in a round, who answers for it, and the time in microseconds.
#[derive(Drop)]
pub(crate) struct Turn<'a, F: Answering> {
    pub rule: &'a Rule,
    pub answer: &'a F,
    pub round: u32,
    pub time: u64,
}

// The id of the command of a rule that fired so often before.
fn command_id(alloc: Global, rule: &Rule, before: usize) -> Result<Name, AllocError>
    requires short { length rule.now.name ≤ MOST_RULE_NAME_BYTES }
    requires few { before < MOST_FIRES }
    ensures { IfOk result (λ id. id ≡ command_id rule.now.name before) }
{
    let _named = rule.name.as_bytes();
    let text = format!(in alloc; "{}-{}", rule.name, before)?;
    Ok(Name::read(text.as_str()).unwrap())
}

// What a rule that fired so often before submits with a command.
fn submission_by(
    alloc: Global,
    rule: &Rule,
    now: u64,
    before: usize,
    command: Command,
) -> Result<Submission, AllocError>
    requires short { length rule.now.name ≤ MOST_RULE_NAME_BYTES }
    requires few { before < MOST_FIRES }
    ensures { IfOk result (λ submission. submission ≡ submission_by rule.now now before command) }
{
    let id = command_id(alloc, rule, before)?;
    let mut act_as = PartySet::new(alloc);
    act_as.insert(rule.party)?;
    let mut commands = CommandList::with_room(alloc, 1)?;
    commands.push(command)?;
    Ok(Submission {
        participant: rule.participant,
        command: id,
        act_as,
        ledger_time: Some(now),
        what: What::Commands(commands),
    })
}

// A rule fires on a contract. After want of memory it hasn't.
fn fire_on<F: Answering>(
    alloc: Global,
    turn: &Turn<'_, F>,
    fired: &mut Fired,
    known: &Known,
    command: Command,
    caused: &mut CausedList,
) -> Result<(), AllocError>
    requires short { length turn.now.rule.now.name ≤ MOST_RULE_NAME_BYTES }
    requires few { length fired.old < MOST_FIRES }
    requires fresh { has_fired fired.old known.now.id ≡ false }
    ensures caused { OnOk result (caused.new
        ≡ caused.old ++ caused_by turn.now.rule.now turn.now.round turn.now.time (length fired.old) known.now command ∷ []) }
    ensures fired { OnOk result (fired.new ≡ fired.old ++ known.now.id ∷ []) }
    ensures err { OnErr result (fired.new ≡ fired.old) }
{
    let submission = submission_by(alloc, turn.rule, turn.time, fired.len(), command)?;
    let instance = known.instance.copied()?;
    caused.push(Caused {
        round: turn.round,
        rule: turn.rule.name,
        contract: known.id,
        instance,
        submission,
    })?;
    fired.push(known.id)
}

// A rule is asked about a row. After want of memory it hasn't fired on it.
fn ask_one<F: Answering>(
    alloc: Global,
    turn: &Turn<'_, F>,
    fired: &mut Fired,
    row: &ActiveRow,
    caused: &mut CausedList,
) -> Result<(), AllocError>
    requires short { length turn.now.rule.now.name ≤ MOST_RULE_NAME_BYTES }
    requires few { length fired.old < MOST_FIRES }
    requires askable { F.can_ask turn.now.answer.now }
    requires exercises { GivesExercises (F.may_answer turn.now.answer.now) }
    ensures ok { OnOk result (AsksOne (F.may_answer turn.now.answer.now) turn.now.rule.now turn.now.round turn.now.time fired.old row.now caused.old
        fired.new caused.new) }
    ensures err { OnErr result (fired.new ≡ fired.old) }
{
    if fired.has(&row.known.id) {
        return Ok(());
    }
    match turn.answer.answer(turn.rule.name, &row.known)? {
        None => Ok(()),
        Some(command) => fire_on(alloc, turn, fired, &row.known, command, caused),
    }
}

/// A rule is asked about rows in their order, and fires on them. After want of memory it may have fired on some.
pub(crate) fn ask_each<F: Answering>(
    alloc: Global,
    turn: &Turn<'_, F>,
    fired: &mut Fired,
    rows: &ActiveRowList,
) -> Result<CausedList, AllocError>
    requires short { length turn.now.rule.now.name ≤ MOST_RULE_NAME_BYTES }
    requires few { length fired.old + length rows.now ≤ MOST_FIRES }
    requires askable { F.can_ask turn.now.answer.now }
    requires exercises { GivesExercises (F.may_answer turn.now.answer.now) }
    ensures fires { IfOk result (λ caused. Fires (F.may_answer turn.now.answer.now) turn.now.rule.now turn.now.round turn.now.time fired.old rows.now caused) }
    ensures fired { IfOk result (λ caused. fired.new ≡ fired.old ++ contracts_of caused) }
    ensures kept { take (length fired.old) fired.new ≡ fired.old }
{
    let mut caused = CausedList::new(alloc);
    for row in rows.as_slice() {
        ask_one(alloc, turn, fired, row, &mut caused)?;
    }
    Ok(caused)
}

/// A rule is asked about rows in their order, and fires on them. After want of memory nothing has fired.
pub(crate) fn fire_or_not<F: Answering>(
    alloc: Global,
    turn: &Turn<'_, F>,
    fired: &mut Fired,
    rows: &ActiveRowList,
) -> Result<CausedList, AllocError>
    requires short { length turn.now.rule.now.name ≤ MOST_RULE_NAME_BYTES }
    requires few { length fired.old + length rows.now ≤ MOST_FIRES }
    requires askable { F.can_ask turn.now.answer.now }
    requires exercises { GivesExercises (F.may_answer turn.now.answer.now) }
    ensures fires { IfOk result (λ caused. Fires (F.may_answer turn.now.answer.now) turn.now.rule.now turn.now.round turn.now.time fired.old rows.now caused) }
    ensures fired { IfOk result (λ caused. fired.new ≡ fired.old ++ contracts_of caused) }
    ensures err { OnErr result (fired.new ≡ fired.old) }
{
    let before = fired.len();
    let answer = ask_each(alloc, turn, fired, rows);
    if answer.is_err() {
        fired.truncate(before);
    }
    answer
}

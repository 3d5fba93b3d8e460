//! The log of a script's run.
ghost use Rattle.std.specs.Prelude.{IfOk};
ghost use Rattle.canton_model.specs.Genuine.{Genuine};
ghost use Rattle.canton_run.specs.Run.{script_with};
ghost use Rattle.framed_form.specs.FramedReading.{framed_reading};
ghost use Rattle.script_read.specs.Kept.{IsAccepted};
ghost use Rattle.trigger_rules.specs.Answers.{GivesExercises};

use crate::end::End;
use crate::fault::Fault;
use canton_model::EntryList;
use canton_run::{RunPlan, run_script};
use confirm_reply::Setup;
use lane_pool::Gate;
use lang_eval::NativeList;
use ledger_terms::limits::MOST_PLACES;
use ledger_terms::{Known, Name, ParticipantId, Topology};
use log_row::LogRow;
use note_rule::flash_on_go;
use script_read::RoundList;
use shared_rounds::Workers;
use std::alloc::{AllocError, AllocGlobal};
use std::random::RandomSource;
use std::sync::Wait;
use std::thread::Threads;
use trigger_rules::{Answering, Closure, RuleList, Rules};

/// The participant with this name. None: the topology has none.
fn participant_of(topology: &Topology, name: Name) -> Option<ParticipantId> {
    for (at, host) in (0..=255u8).zip(topology.hosts.as_slice()) {
        if host.name == name {
            return Some(ParticipantId(at));
        }
    }
    None
}

/// The participant that the name behind `--for` names; None where no name is given. Err: no participant of the script has the name.
pub(crate) fn reader_in(
    topology: &Topology,
    name: Option<Name>,
) -> Result<Option<ParticipantId>, End> {
    match name {
        Some(name) => match participant_of(topology, name) {
            Some(me) => Ok(Some(me)),
            None => Err(End::by(2, Fault::Participant(name))),
        },
        None => Ok(None),
    }
}

/// The log that a script's run leaves. Its rules answer by `answer`, which says what a rule exercises on a contract.
fn log_by<R: Threads + Wait + Sync + RandomSource + AllocGlobal, G: Gate + Sync, A: Answering>(
    workers: &Workers<'_, R, G>,
    setup: &Setup,
    rounds: &RoundList,
    triggers: RuleList,
    answer: A,
) -> Result<EntryList, AllocError>
    requires accepted { IsAccepted (script_with setup.now triggers rounds.now) }
    requires askable { A.can_ask answer }
    requires exercises { GivesExercises (A.may_answer answer) }
    ensures { IfOk result (λ log. Genuine (framed_reading setup.now.topology setup.now.checked) setup.now.topology.params log) }
{
    let natives = NativeList::new(workers.alloc);
    let mut row = LogRow::new(workers.alloc)?;
    let mut rules = Rules::new(triggers, answer);
    let plan = RunPlan {
        setup,
        rounds,
        capacity: MOST_PLACES as u64,
    };
    let played = run_script(workers, &natives, &plan, &mut rules, &mut row)?;
    Ok(played.into_log())
}

/// The log that a script's run leaves, with the rules' answers that `canton_cli` has.
pub(crate) fn log_of<R: Threads + Wait + Sync + RandomSource + AllocGlobal, G: Gate + Sync>(
    workers: &Workers<'_, R, G>,
    setup: &Setup,
    rounds: &RoundList,
    triggers: RuleList,
) -> Result<EntryList, AllocError>
    requires { IsAccepted (script_with setup.now triggers rounds.now) }
    ensures { IfOk result (λ log. Genuine (framed_reading setup.now.topology setup.now.checked) setup.now.topology.params log) }
{
    let alloc = workers.alloc;
    let answer = Closure {
        call: move |_rule: Name, known: &Known| flash_on_go(alloc, known),
    };
    log_by(workers, setup, rounds, triggers, answer)
}

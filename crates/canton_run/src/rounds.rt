//! The rounds of a script, one after another.
ghost use Rattle.std.specs.Prelude.{◌≡◌, ◌<◌, ◌≤◌, ◌+◌, ◌^◌, ◌++◌, ℕ, List, [], length, take, IfOk, OnOk};
ghost use Rattle.ledger_terms.specs.declared.limits.TheConstants.{MOST_PLACES};
ghost use Rattle.node_core.specs.Bases.{AreBases, Bases};
ghost use Rattle.script_read.specs.Kept.{IsAccepted};
ghost use Rattle.script_read.specs.declared.script.Script.{Script};
ghost use Rattle.script_read.specs.declared.round.Round.{Round as PartRound};
ghost use Rattle.trigger_rules.specs.Kept.{fired_by};
ghost use Rattle.canton_run.specs.Between.{ArePlayed, CanBeAnswered, IsAnsweredRound, IsPartOf, IsPlayedOn, IsSetupOf, time_in};
ghost use Rattle.canton_run.specs.Restarts.{ArePrunedBy};
ghost use Rattle.canton_run.specs.RoundsPlayed.{RoundsArePlayed};
ghost use Rattle.canton_run.specs.Run.{script_with};

use crate::answers::Answers;
use crate::raws::hand_in_raws;
use crate::run_plan::RunPlan;
use crate::second_part::{ask_rules, play_caused};
use confirm_reply::Setup;
use lane_pool::Gate;
use lang_eval::NativeList;
use ledger_terms::U64List;
use node_core::SubmitResultList;
use script_read::Round;
use shared_rounds::{Answered, Workers, submit_shared};
use std::alloc::{AllocError, AllocGlobal, Global};
use std::random::RandomSource;
use std::sync::Wait;
use std::thread::Threads;
use trigger_rules::{Answering, CausedList, Rules};
use world_play::{World, begin_round, settle, submit_each};
use world_restart::restart;

/// The synchroniser after rounds, with what they answered.
#[derive(Drop)]
pub struct PlayedRounds<'r> {
    pub world: World<'r>,
    pub answers: Answers,
}

// The submissions of a round by one thread.
fn submit_alone<'r>(
    alloc: Global,
    natives: &NativeList,
    world: World<'r>,
    round: &Round,
) -> Result<Answered<'r>, AllocError>
    requires { (script : Script) × (capacity : ℕ) × CanBeAnswered script capacity round.now world }
    ensures answered { IfOk result (λ a. (script : Script) (capacity : ℕ) → CanBeAnswered script capacity round.now world.entry
        → IsAnsweredRound script capacity 0 round.now world.entry a.world a.results) }
    ensures bases { IfOk result (λ a. (bases : Bases) → AreBases bases (world.entry.nodes).items → AreBases bases (a.world.nodes).items) }
{
    let mut world = world;
    let mut results = SubmitResultList::new(alloc);
    submit_each(natives, &mut world, &round.submits, &mut results)?;
    Ok(Answered { world, results })
}

// The submissions of a round: by one thread, or by clients beside lanes where there are workers.
fn submit_round<'r, R: Threads + Wait + Sync + RandomSource + AllocGlobal, G: Gate + Sync>(
    workers: &Workers<'_, R, G>,
    natives: &NativeList,
    setup: &Setup,
    world: World<'r>,
    round: &Round,
) -> Result<Answered<'r>, AllocError>
    requires answerable { (script : Script) × (capacity : ℕ) × IsSetupOf script setup.now × CanBeAnswered script capacity round.now world }
    ensures answered { IfOk result (λ a. (script : Script) (capacity : ℕ) → IsSetupOf script setup.now
        → CanBeAnswered script capacity round.now world.entry
        → IsAnsweredRound script capacity workers.now.count round.now world.entry a.world a.results) }
    ensures bases { IfOk result (λ a. (bases : Bases) → AreBases bases (world.entry.nodes).items → AreBases bases (a.world.nodes).items) }
{
    if workers.count == 0 {
        return submit_alone(workers.alloc, natives, world, round);
    }
    submit_shared(
        workers,
        setup,
        world,
        &round.paused,
        round.hold_verdicts,
        &round.submits,
    )
}

// Puts results behind others.
fn append(results: &mut SubmitResultList, more: SubmitResultList) -> Result<(), AllocError>
    ensures { OnOk result (results.new ≡ results.old ++ more) }
{
    'more: for one in more.into_vec() {
        results.push(one)?;
    }
    Ok(())
}

// Time moves on, the raw requests and then the submissions are handed in, and the world settles.
fn play_round<'r, R: Threads + Wait + Sync + RandomSource + AllocGlobal, G: Gate + Sync>(
    workers: &Workers<'_, R, G>,
    natives: &'r NativeList,
    setup: &Setup,
    world: World<'r>,
    round: &Round,
    answers: &mut Answers,
) -> Result<World<'r>, AllocError>
    requires played { (script : Script) × (capacity : ℕ) × (parts : List PartRound) × IsSetupOf script setup.now × IsPartOf script round.now
        × (time_in parts + round.now.advance ≤ 10 ^ 16) × ArePlayed script capacity workers.now.count parts world answers.old.results answers.old.ends }
    ensures on { IfOk result (λ played. (script : Script) (capacity : ℕ) (parts : List PartRound) → IsSetupOf script setup.now
        → IsPartOf script round.now → time_in parts + round.now.advance ≤ 10 ^ 16
        → ArePlayed script capacity workers.now.count parts world.entry answers.old.results answers.old.ends
        → IsPlayedOn script capacity workers.now.count parts round.now world.entry played answers.old.results answers.new.results answers.old.ends
        answers.new.ends) }
    ensures bases { IfOk result (λ played. (bases : Bases) → AreBases bases (world.entry.nodes).items → AreBases bases (played.nodes).items) }
    ensures caused { OnOk result (answers.new.caused ≡ answers.old.caused) }
{
    let alloc = workers.alloc;
    let hold_verdicts = round.hold_verdicts;
    let mut world = world;
    begin_round(&mut world, round.advance, &round.paused)?;
    hand_in_raws(alloc, &mut world, &round.raws)?;
    let answered = submit_round(workers, natives, setup, world, round)?;
    let Answered { mut world, results } = answered;
    settle(alloc, natives, &mut world, &round.paused, hold_verdicts)?;
    append(&mut answers.results, results)?;
    answers.ends.push(world.sequencer.len())?;
    Ok(world)
}

// Both parts of the round of a number. Its participants restart before anything else, and its rules are asked between the parts.
fn play_both<
    'r,
    R: Threads + Wait + Sync + RandomSource + AllocGlobal,
    G: Gate + Sync,
    A: Answering,
>(
    workers: &Workers<'_, R, G>,
    natives: &'r NativeList,
    plan: &RunPlan<'r>,
    number: u32,
    rules: &mut Rules<A>,
    played: PlayedRounds<'r>,
) -> Result<PlayedRounds<'r>, AllocError>
    requires accepted { IsAccepted (script_with plan.now.setup.now rules.old.rules plan.now.rounds.now) }
    requires room { plan.now.capacity ≤ MOST_PLACES }
    requires there { number < length plan.now.rounds.now }
    requires played { RoundsArePlayed (A.may_answer rules.old.answer) (script_with plan.now.setup.now rules.old.rules plan.now.rounds.now)
        plan.now.capacity workers.now.count number played.world (fired_by rules.old) (played.answers).results (played.answers).ends
        (played.answers).caused }
    requires pruned { ArePrunedBy (script_with plan.now.setup.now rules.old.rules plan.now.rounds.now) (take number plan.now.rounds.now)
        (played.answers).ends played.world }
    ensures rules { (rules.new.rules ≡ rules.old.rules) × (rules.new.answer ≡ rules.old.answer) }
    ensures played { IfOk result (λ after. RoundsArePlayed (A.may_answer rules.old.answer)
        (script_with plan.now.setup.now rules.old.rules plan.now.rounds.now) plan.now.capacity workers.now.count (number + 1) after.world
        (fired_by rules.new) (after.answers).results (after.answers).ends (after.answers).caused) }
    ensures pruned { IfOk result (λ after. ArePrunedBy (script_with plan.now.setup.now rules.old.rules plan.now.rounds.now)
        (take (number + 1) plan.now.rounds.now) (after.answers).ends after.world) }
{
    let alloc = workers.alloc;
    let round = &plan.rounds.as_slice()[number as usize];
    let PlayedRounds { world, mut answers } = played;
    let mut world = world;
    restart(alloc, plan.setup, &mut world, &round.restarts)?;
    let mut world = play_round(workers, natives, plan.setup, world, round, &mut answers)?;
    let caused = ask_rules(alloc, &mut world, rules, round, number)?;
    play_caused(alloc, natives, &mut world, round, caused, &mut answers)?;
    Ok(PlayedRounds { world, answers })
}

/// Plays the rounds of a script on its new synchroniser, `world`. In each round first the participants restart that the round names, and then both its
/// parts are played. The result has the synchroniser after them, the results of all submissions, the ends of the parts and what rules caused. An Err is
/// want of memory.
pub fn play_rounds<
    'r,
    R: Threads + Wait + Sync + RandomSource + AllocGlobal,
    G: Gate + Sync,
    A: Answering,
>(
    workers: &Workers<'_, R, G>,
    natives: &'r NativeList,
    plan: &RunPlan<'r>,
    rules: &mut Rules<A>,
    world: World<'r>,
) -> Result<PlayedRounds<'r>, AllocError>
    requires accepted { IsAccepted (script_with plan.now.setup.now rules.old.rules plan.now.rounds.now) }
    requires room { plan.now.capacity ≤ MOST_PLACES }
    requires played { RoundsArePlayed (A.may_answer rules.old.answer) (script_with plan.now.setup.now rules.old.rules plan.now.rounds.now)
        plan.now.capacity workers.now.count 0 world (fired_by rules.old) [] [] [] }
    requires pruned { ArePrunedBy (script_with plan.now.setup.now rules.old.rules plan.now.rounds.now) [] [] world }
    ensures played { IfOk result (λ played. RoundsArePlayed (A.may_answer rules.old.answer)
        (script_with plan.now.setup.now rules.old.rules plan.now.rounds.now) plan.now.capacity workers.now.count (length plan.now.rounds.now)
        played.world (fired_by rules.new) (played.answers).results (played.answers).ends (played.answers).caused) }
    ensures pruned { IfOk result (λ played. ArePrunedBy (script_with plan.now.setup.now rules.old.rules plan.now.rounds.now) plan.now.rounds.now
        (played.answers).ends played.world) }
{
    let alloc = workers.alloc;
    let mut played = PlayedRounds {
        world,
        answers: Answers {
            results: SubmitResultList::new(alloc),
            ends: U64List::new(alloc),
            caused: CausedList::new(alloc),
        },
    };
    let count = plan.rounds.as_slice().len() as u32;
    'rounds: for number in 0..count {
        played = play_both(workers, natives, plan, number, rules, played)?;
    }
    Ok(played)
}

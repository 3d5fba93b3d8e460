//! A whole script, from an empty log on.
ghost use Rattle.std.specs.Prelude.{◌≡◌, ◌≤◌, [], IfOk, map};
ghost use Rattle.commitment_text.specs.Knowledge.{KnowAlike, knowledge_of};
ghost use Rattle.ledger_terms.specs.declared.limits.TheConstants.{MOST_PLACES};
ghost use Rattle.script_read.specs.Kept.{IsAccepted};
ghost use Rattle.canton_run.specs.Jobs.{knowledge_in, views_in};
ghost use Rattle.canton_run.specs.Restarts.{view_in};
ghost use Rattle.canton_run.specs.Run.{IsRun, script_with};

use crate::log_copy::log_of;
use crate::played::{Played, RunRecord};
use crate::rounds::{PlayedRounds, play_rounds};
use crate::run_plan::RunPlan;
use lane_pool::Gate;
use lang_eval::NativeList;
use log_row::LogRow;
use prepare_request::laws::prepared_requests_make_a_machine;
use shared_rounds::Workers;
use std::alloc::{AllocError, AllocGlobal};
use std::random::RandomSource;
use std::sync::Wait;
use std::thread::Threads;
use trigger_rules::{Answering, Rules};
use world_play::World;
use world_play::laws::sent_requests_open_by_the_rules;

/// Plays the rounds of a script over a new synchroniser with its log in `row`; `plan` has its capacity. The rules are asked in each round once its
/// first part has settled. The thread that plays the rounds, and no worker, asks `natives` for a choice that they have, in place of the language. In
/// the end every participant, paused or not, reads the whole log. An Err is want of memory.
pub fn run_script<
    'r,
    R: Threads + Wait + Sync + RandomSource + AllocGlobal,
    G: Gate + Sync,
    A: Answering,
>(
    workers: &Workers<'_, R, G>,
    natives: &'r NativeList,
    plan: &RunPlan<'r>,
    rules: &mut Rules<A>,
    row: &'r mut LogRow,
) -> Result<Played<'r>, AllocError>
    requires accepted { IsAccepted (script_with plan.now.setup.now rules.old.rules plan.now.rounds.now) }
    requires room { plan.now.capacity ≤ MOST_PLACES }
    requires fresh { rules.old.fired ≡ [] }
    ensures run { IfOk result (λ played. IsRun (A.may_answer rules.old.answer) (script_with plan.now.setup.now rules.old.rules plan.now.rounds.now)
        plan.now.capacity workers.now.count (played.record).log (played.record).results (played.record).ends (played.record).caused) }
    ensures views { IfOk result (λ played. map (view_in plan.now.rounds.now) (played.nodes).items
        ≡ views_in (script_with plan.now.setup.now rules.old.rules plan.now.rounds.now) (played.record).log (played.record).ends) }
    ensures knowledge { IfOk result (λ played. KnowAlike (map knowledge_of (played.nodes).items)
        (knowledge_in (script_with plan.now.setup.now rules.old.rules plan.now.rounds.now) (played.record).log (played.record).ends)) }
{
    // the prover learns from these calls that there is a machine, and of what the requests of submissions are
    prepared_requests_make_a_machine();
    sent_requests_open_by_the_rules();
    let alloc = workers.alloc;
    let new = World::new(alloc, plan.setup, row, plan.capacity)?;
    let rounds_played = play_rounds(workers, natives, plan, rules, new)?;
    let PlayedRounds { mut world, answers } = rounds_played;
    world.catch_up()?;
    let World {
        mut sequencer,
        nodes,
        ..
    } = world;
    let log = log_of(alloc, &mut sequencer)?;
    let record = RunRecord {
        log,
        results: answers.results,
        ends: answers.ends,
        caused: answers.caused,
    };
    Ok(Played { record, nodes })
}

//! A run with what a job writes of it.
ghost use Rattle.std.specs.Prelude.{◌≡◌, ◌≤◌, ℕ, All, IfOk, length};
ghost use Rattle.cli_words.specs.declared.job.Job.TheVariants.{Dump};
ghost use Rattle.ledger_terms.specs.declared.limits.TheConstants.{MOST_PLACES, MOST_SCRIPT_BYTES};
ghost use Rattle.log_dump.specs.InRange.{IsBlock, IsTyped};
ghost use Rattle.script_read.specs.Kept.{IsAccepted};
ghost use Rattle.trigger_rules.specs.Answers.{GivesExercises};
ghost use Rattle.canton_run.specs.Jobs.{capacity_of, told_text};
ghost use Rattle.canton_run.specs.Run.{IsRun};

use crate::given_script::{GivenScript, ScriptParts, parts_of};
use crate::job_text::{JobText, text_of};
use crate::played::{Played, RunRecord};
use crate::run_plan::RunPlan;
use crate::run_remains::RunRemains;
use crate::script_run::run_script;
use cli_words::Job;
use lane_pool::Gate;
use lang_eval::NativeList;
use ledger_terms::Bytes;
use ledger_terms::limits::MOST_PLACES;
use log_row::LogRow;
use shared_rounds::Workers;
use std::alloc::{AllocError, AllocGlobal};
use std::random::RandomSource;
use std::sync::Wait;
use std::thread::Threads;
use trigger_rules::{Answering, Rules};

/// What a run leaves behind: its record, what a job writes of it, and what nobody asks for any more.
#[derive(Drop)]
pub struct ToldRun {
    pub record: RunRecord,
    pub text: Bytes,
    pub left: RunRemains,
}

// How many places of the log the requests of a job may need.
fn capacity_of(job: Job) -> u64
    ensures { result ≡ capacity_of job }
{
    match job {
        Job::Run { log, .. } | Job::Commitments { log, .. } | Job::Dump { log, .. } => log,
        Job::Gen { .. } => MOST_PLACES as u64,
        Job::Audit => 0,
    }
}

/// Runs the script and makes what the job writes of it, of which nothing is written yet. `answer` says what the script's rules do about a contract. An
/// Err is want of memory.
pub fn told_run<
    R: Threads + Wait + Sync + RandomSource + AllocGlobal,
    G: Gate + Sync,
    A: Answering,
>(
    workers: &Workers<'_, R, G>,
    natives: &NativeList,
    job: Job,
    given: GivenScript,
    answer: A,
) -> Result<ToldRun, AllocError>
    requires accepted { IsAccepted given.script }
    requires short { length given.bytes ≤ MOST_SCRIPT_BYTES }
    requires room { capacity_of job ≤ MOST_PLACES }
    requires askable { A.can_ask answer }
    requires exercises { GivesExercises (A.may_answer answer) }
    ensures ran { IfOk result (λ run. IsRun (A.may_answer answer) given.script (capacity_of job) workers.now.count (run.record).log
        (run.record).results (run.record).ends (run.record).caused) }
    ensures text { IfOk result (λ run. run.text ≡ told_text job given.bytes given.script (run.record).log (run.record).results
        (run.record).ends (run.record).caused) }
    ensures spelled { (count log : ℕ) → job ≡ Dump count log → IfOk result (λ run. IsBlock given.bytes × All IsTyped (run.record).log) }
{
    let ScriptParts {
        setup,
        triggers,
        rounds,
        bytes,
    } = parts_of(given);
    let alloc = workers.alloc;
    let mut row = LogRow::new(alloc)?;
    let mut rules = Rules::new(triggers, answer);
    let plan = RunPlan {
        setup: &setup,
        rounds: &rounds,
        capacity: capacity_of(job),
    };
    let Ok(Played { record, nodes }) = run_script(workers, natives, &plan, &mut rules, &mut row)
    else {
        return Err(AllocError);
    };
    let Ok(told) = text_of(alloc, job, &plan, bytes.as_slice(), &record, nodes) else {
        return Err(AllocError);
    };
    let JobText { text, views, nodes } = told;
    let left = RunRemains::new(row, views, nodes, setup, rounds);
    Ok(ToldRun { record, text, left })
}

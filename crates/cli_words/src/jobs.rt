//! Jobs from what is given.
ghost use Rattle.std.specs.Prelude.{◌≡◌, ◌≤◌, IfSome};
ghost use Rattle.cli_words.specs.Command.{matches_given};
ghost use Rattle.cli_words.specs.Jobs.{number_or, options_of, run_of, commitments_of, dump_of, audit_of, gen_of, job_by};
ghost use Rattle.cli_words.specs.Within.{AreWithin, IsWithin};

use crate::job::Job;
use crate::limits::{MOST_COUNT, MOST_SEED, MOST_WORKERS};
use crate::numbers::{number_of, number_or};
use crate::run_options::RunOptions;
use clap::ArgMatches;
use ledger_terms::limits::MOST_PLACES;

/// How many workers there are.
fn workers_of(given: &ArgMatches<'_>) -> Option<u32>
    ensures number { result ≡ number_or 0 0 MOST_WORKERS (matches_given given.now).workers }
    ensures within { IfSome result (λ n. n ≤ MOST_WORKERS) }
{
    let workers = number_or(0, 0, MOST_WORKERS, given.get_str("workers"))?;
    Some(workers as u32)
}

/// The options of a job on the source's script.
#[tactic(auto, unfolding(crate::specs::Jobs::options_of))]
fn options_of(given: &ArgMatches<'_>) -> Option<RunOptions>
    ensures options { result ≡ options_of (matches_given given.now) }
    ensures within { IfSome result AreWithin }
{
    if given.get_str("count").is_some() || given.get_str("seed").is_some() {
        return None;
    }
    let workers = workers_of(given)?;
    let most = MOST_PLACES as u64;
    let log = number_or(most, 1, most, given.get_str("log"))?;
    Some(RunOptions { workers, log })
}

/// A run of the source's script.
#[tactic(auto, unfolding(crate::specs::Jobs::run_of))]
fn run_of(given: &ArgMatches<'_>) -> Option<Job>
    ensures job { result ≡ run_of (matches_given given.now) }
    ensures within { IfSome result IsWithin }
{
    let RunOptions { workers, log } = options_of(given)?;
    Some(Job::Run { workers, log })
}

/// The commitments of the source's script.
#[tactic(auto, unfolding(crate::specs::Jobs::commitments_of))]
fn commitments_of(given: &ArgMatches<'_>) -> Option<Job>
    ensures job { result ≡ commitments_of (matches_given given.now) }
    ensures within { IfSome result IsWithin }
{
    let RunOptions { workers, log } = options_of(given)?;
    Some(Job::Commitments { workers, log })
}

/// A dump of a run of the source's script.
#[tactic(auto, unfolding(crate::specs::Jobs::dump_of))]
fn dump_of(given: &ArgMatches<'_>) -> Option<Job>
    ensures job { result ≡ dump_of (matches_given given.now) }
    ensures within { IfSome result IsWithin }
{
    let RunOptions { workers, log } = options_of(given)?;
    Some(Job::Dump { workers, log })
}

/// An audit, which takes no argument.
#[tactic(auto, unfolding(crate::specs::Jobs::audit_of))]
fn audit_of(given: &ArgMatches<'_>) -> Option<Job>
    ensures job { result ≡ audit_of (matches_given given.now) }
    ensures within { IfSome result IsWithin }
{
    if given.get_str("workers").is_some() || given.get_str("log").is_some() {
        return None;
    }
    if given.get_str("count").is_some() || given.get_str("seed").is_some() {
        return None;
    }
    Some(Job::Audit)
}

/// A run of a generated script.
#[tactic(auto, unfolding(crate::specs::Jobs::gen_of))]
fn gen_of(given: &ArgMatches<'_>) -> Option<Job>
    ensures job { result ≡ gen_of (matches_given given.now) }
    ensures within { IfSome result IsWithin }
{
    if given.get_str("log").is_some() {
        return None;
    }
    let count = number_of(1, MOST_COUNT, given.get_str("count"))?;
    let seed = number_of(0, MOST_SEED, given.get_str("seed"))?;
    let workers = workers_of(given)?;
    Some(Job::Gen {
        count: count as u32,
        seed,
        workers,
    })
}

/// The job of the command with this name and the arguments that are given; None where there is no such command or its arguments are at fault.
pub(crate) fn job_by(command: &str, given: &ArgMatches<'_>) -> Option<Job>
    ensures job { result ≡ job_by command.now (matches_given given.now) }
    ensures within { IfSome result IsWithin }
{
    if command == "run" {
        run_of(given)
    } else if command == "commitments" {
        commitments_of(given)
    } else if command == "dump" {
        dump_of(given)
    } else if command == "audit" {
        audit_of(given)
    } else if command == "gen" {
        gen_of(given)
    } else {
        None
    }
}

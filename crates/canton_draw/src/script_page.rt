//! From a script to its page.
ghost use Rattle.std.specs.Prelude.{◌≡◌, ◌<◌, ◌^◌, ℕ, length, take};
ghost use Rattle.canton_run.specs.Run.{script_with};
ghost use Rattle.script_read.specs.Kept.{IsAccepted};

use crate::end::End;
use crate::script_log::{log_of, reader_in};
use canton_model::Entry;
use confirm_reply::Setup;
use lane_pool::Gate;
use ledger_terms::{Name, ParticipantId, Text};
use page_text::page_of;
use script_read::{RoundList, Script};
use shared_rounds::Workers;
use std::alloc::{AllocError, AllocGlobal};
use std::random::RandomSource;
use std::sync::Wait;
use std::thread::Threads;
use trigger_rules::RuleList;

/// Entries of which a page tells.
const MOST_ENTRIES: usize = 500;

/// The first entries of a log, of which a page tells.
fn first_entries(log: &[Entry]) -> &[Entry]
    ensures few { length result.now < 2 ^ 63 }
    ensures first { (n : ℕ) × (result.now ≡ take n log.now) }
{
    match log.get(..MOST_ENTRIES) {
        Some(first) => first,
        None => log,
    }
}

/// The page of the log that a script's run leaves.
fn page_text<R: Threads + Wait + Sync + RandomSource + AllocGlobal, G: Gate + Sync>(
    workers: &Workers<'_, R, G>,
    setup: &Setup,
    rounds: &RoundList,
    triggers: RuleList,
    reader: Option<ParticipantId>,
) -> Result<Text, AllocError>
    requires { IsAccepted (script_with setup.now triggers rounds.now) }
{
    let log = log_of(workers, setup, rounds, triggers)?;
    let first = first_entries(log.as_slice());
    page_of(workers.alloc, setup, log.len() as u64, first, reader)
}

/// Runs a script as `run` without an option does and gives the page of its run, of what one participant knows where `reader` is a name. Err: how the
/// program ends where there is no page.
pub(crate) fn script_page<R: Threads + Wait + Sync + RandomSource + AllocGlobal, G: Gate + Sync>(
    workers: &Workers<'_, R, G>,
    script: Script,
    reader: Option<Name>,
) -> Result<Text, End>
    requires { IsAccepted script }
{
    let Script {
        topology,
        checked,
        triggers,
        rounds,
    } = script;
    let me = reader_in(&topology, reader)?;
    let setup = Setup { topology, checked };
    match page_text(workers, &setup, &rounds, triggers, me) {
        Ok(text) => Ok(text),
        Err(AllocError) => Err(End::of(70)),
    }
}

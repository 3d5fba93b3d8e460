//! From a script to its picture.
ghost use Rattle.canton_run.specs.Run.{script_with};
ghost use Rattle.script_read.specs.Kept.{IsAccepted};

use crate::end::End;
use crate::script_log::{log_of, reader_in};
use confirm_reply::Setup;
use lane_pool::Gate;
use ledger_terms::{Name, ParticipantId, Text};
use script_read::{RoundList, Script};
use shared_rounds::Workers;
use std::alloc::{AllocError, AllocGlobal};
use std::random::RandomSource;
use std::sync::Wait;
use std::thread::Threads;
use trigger_rules::RuleList;
use view_picture::{drawn, picture_of};

/// The picture of the log that a script's run leaves.
fn picture_text<R: Threads + Wait + Sync + RandomSource + AllocGlobal, G: Gate + Sync>(
    workers: &Workers<'_, R, G>,
    setup: &Setup,
    rounds: &RoundList,
    triggers: RuleList,
    reader: Option<&ParticipantId>,
) -> Result<Text, AllocError>
    requires { IsAccepted (script_with setup.now triggers rounds.now) }
{
    let log = log_of(workers, setup, rounds, triggers)?;
    let picture = picture_of(workers.alloc, &setup.topology, &log, reader)?;
    drawn(workers.alloc, &picture)
}

/// Runs a script as `run` without an option does and gives the picture of its requests, as one participant is shown them where `reader` is a name.
/// Err: how the program ends where there is no picture.
pub(crate) fn script_picture<R: Threads + Wait + Sync + RandomSource + AllocGlobal, G: Gate + Sync>(
    workers: &Workers<'_, R, G>,
    script: Script,
    reader: Option<Name>,
) -> Result<Text, End>
    requires { IsAccepted script }
{
    let Script {
        topology,
        checked,
        triggers,
        rounds,
    } = script;
    let me = reader_in(&topology, reader)?;
    let setup = Setup { topology, checked };
    match picture_text(workers, &setup, &rounds, triggers, me.as_ref()) {
        Ok(text) => Ok(text),
        Err(AllocError) => Err(End::of(70)),
    }
}

//! Jobs that are polled by hand.
ghost use Rattle.std.specs.Prelude.{◌≡◌, true, IfOk};
ghost use Rattle.std.specs.List.{AllByRecursion};
ghost use Rattle.confirm_reply.specs.Verdict.{CanCheck};

use crate::answer::Answer;
use crate::check::facts::paths_of;
use crate::check::polls::put_poll;
use crate::check::received::{Received, receive};
use crate::tree::script_in;
use crate::words::Words;
use confirm_reply::{CheckInput, Setup, Shown, can_check};
use futures::test::MockTask;
use ledger_terms::{ParticipantId, Path, PathList};
use script_read::Script;
use std::alloc::{AllocError, Global};
use validate_job::ValidateJob;

/// What a job is about: the place, the participant, the time, and the facts as a word.
#[derive(Clone, Copy)]
struct Asked<'a> {
    place: u64,
    me: ParticipantId,
    time: u64,
    facts: &'a str,
}

/// Puts the polls of a case's job at the end: its name, the place, the paths of the views, the participant, the time, the facts, and
/// the script.
pub(crate) fn put_job(alloc: Global, task: &MockTask, mut words: Words<'_>, out: &mut Answer) {
    out.line(&["job", words.next()]);
    let place = words.number();
    let paths = words.next();
    let asked = Asked {
        place,
        me: ParticipantId((words.number() % 256) as u8),
        time: words.number(),
        facts: words.next(),
    };
    let Ok(views) = paths_of(alloc, paths) else {
        return out.lack();
    };
    if let Some(script) = script_in(alloc, words.rest(), out) {
        put_received(alloc, task, asked, views, script, out);
    }
}

/// Reads the script's last request as the participant does, and puts the polls of its job at the end.
fn put_received(
    alloc: Global,
    task: &MockTask,
    asked: Asked<'_>,
    views: PathList,
    script: Box<Script>,
    out: &mut Answer,
) {
    let Asked {
        place,
        me,
        time,
        facts,
    } = asked;
    match receive(alloc, &script, me, facts, out) {
        Some(received) => {
            let setup = setup_of(Box::into_inner(script));
            let input = input_of(&setup, me, time, received);
            put_checked(alloc, task, input, place, views, out);
        }
        None => out.line(&["not received"]),
    }
}

fn setup_of(script: Script) -> Setup {
    let Script {
        topology,
        checked,
        ..
    } = script;
    Setup { topology, checked }
}

fn input_of<'s>(
    setup: &'s Setup,
    me: ParticipantId,
    time: u64,
    received: Received,
) -> CheckInput<'s> {
    let Received {
        sender,
        shown,
        facts,
    } = received;
    CheckInput {
        setup,
        me,
        sender,
        time,
        shown,
        facts,
    }
}

/// Puts the polls of a job at the end, where all of the views can be checked.
#[tactic(auto, using(crate::proofs::Each::all_of_each))]
fn put_checked(
    alloc: Global,
    task: &MockTask,
    input: CheckInput<'_>,
    place: u64,
    views: PathList,
    out: &mut Answer,
) {
    if views.is_empty() {
        return out.line(&["not checked"]);
    }
    match can_check_all(alloc, &input, views.as_slice()) {
        Ok(true) => put_polls(task, ValidateJob::new(input, place, views), out),
        Ok(false) => out.line(&["not checked"]),
        Err(_) => out.lack(),
    }
}

/// Whether each of the views can be checked.
fn can_check_all(alloc: Global, input: &CheckInput<'_>, views: &[Path]) -> Result<bool, AllocError>
    ensures { IfOk result (λ can. can ≡ true → AllByRecursion (CanCheck input.now) views.now) }
{
    for view in views {
        if !can_check_view(alloc, input, view)? {
            return Ok(false);
        }
    }
    Ok(true)
}

/// Whether a view can be checked: where an envelope is open, it opens that view, and all actions that it opens have roles.
fn can_check_view(alloc: Global, input: &CheckInput<'_>, view: &Path) -> Result<bool, AllocError>
    ensures { IfOk result (λ can. can ≡ true → CanCheck input.now view.now) }
{
    match &input.shown {
        Shown::Fixed(_) => Ok(true),
        Shown::Open(tree) => can_check(alloc, &input.setup.checked, tree.opened(), view),
    }
}

/// Polls a job as often as it has views.
fn put_polls(task: &MockTask, mut job: ValidateJob<'_>, out: &mut Answer) {
    for _ in 0..job.left() {
        put_poll(task, &mut job, out);
    }
}

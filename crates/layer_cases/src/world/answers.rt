//! Answers of cases.
ghost use Rattle.std.specs.Prelude.{◌≤◌, All, length};
ghost use Rattle.script_read.specs.Kept.{IsAccepted};
ghost use Rattle.world_play.specs.Events.{CanHappen};

use crate::answer::Answer;
use crate::tree::script_in;
use crate::words::Words;
use crate::world::handed_in::handed_in;
use crate::world::plan::{Asked, Plan, is_within_time, plan_of};
use crate::world::playing::played;
use confirm_reply::Setup;
use futures::test::MockTask;
use script_read::Script;
use std::alloc::{AllocError, Global};

/// Puts what answers a line at the end.
pub(crate) fn put_answer(alloc: Global, task: &MockTask, line: &str, out: &mut Answer) {
    let mut words = Words::of(line);
    let word = words.next();
    if word != "play" && word != "late" {
        return out.line(&[line]);
    }
    out.line(&[word, words.next()]);
    let late = if word == "late" { words.next() } else { "" };
    let asked = Asked {
        late,
        words: words.next(),
    };
    if let Some(script) = script_in(alloc, words.rest(), out) {
        let told = put_script(alloc, task, asked, Box::into_inner(script), out);
        out.keep(told);
    }
}

fn put_script(
    alloc: Global,
    task: &MockTask,
    asked: Asked<'_>,
    script: Script,
    out: &mut Answer,
) -> Result<(), AllocError>
    requires { IsAccepted script }
{
    let Script {
        topology,
        checked,
        rounds,
        ..
    } = script;
    let setup = Setup { topology, checked };
    let left = handed_in(alloc, rounds)?;
    match plan_of(alloc, &setup, left, asked)? {
        Some(plan) => put_plan(alloc, task, &setup, &plan, out),
        None => {
            out.line(&["no events"]);
            Ok(())
        }
    }
}

/// Plays a plan and puts what is told then at the end, where its events don't move the time too far.
fn put_plan(
    alloc: Global,
    task: &MockTask,
    setup: &Setup,
    plan: &Plan,
    out: &mut Answer,
) -> Result<(), AllocError>
    requires hosts { length setup.now.topology.hosts ≤ 256 }
    requires within { All (CanHappen setup.now.topology setup.now.checked) plan.now.events }
{
    if !is_within_time(plan.events.as_slice()) {
        out.line(&["too late"]);
        return Ok(());
    }
    played(alloc, task, setup, plan, out)
}

//! A participant's job that comes to its end after the request was decided.
ghost use Rattle.std.specs.Prelude.{◌≡◌, true, ℕ, is_some};
ghost use Rattle.ledger_model.specs.Terms.{ParticipantId};
ghost use Rattle.canton_model.specs.Inbox.{notice_at};
ghost use Rattle.world_model.specs.Lawful.{Lawful};
ghost use Rattle.world_model.specs.Machine.{Machine};
ghost use Rattle.world_model.specs.Mediator.{MediatorState};
ghost use Rattle.node_core.specs.Participant.{items_of, owed_there, owes_there};
ghost use Rattle.world_play.specs.Parts.{IsParticipant};
ghost use Rattle.world_play.specs.Worlds.{AreNodesOf, world_with};
ghost use Rattle.world_play.specs.WorldOf.{IsWorldOf, world_of};

use crate::answer::Answer;
use crate::check::put_poll;
use crate::world::late_jobs::{claimed, finished, give_up, read_on};
use futures::test::MockTask;
use node_core::Node;
use seq_log::Sequencer;
use std::alloc::{AllocError, Global};
use validate_job::Finished;
use world_play::World;

/// Puts what is told of the next jobs of the participant at an index at the end.
pub(crate) fn put_late_in(
    alloc: Global,
    task: &MockTask,
    world: &mut World<'_>,
    at: usize,
    out: &mut Answer,
) -> Result<(), AllocError>
    requires { (m : Machine) × (state : MediatorState) × IsWorldOf m state world.old × Lawful m (world_of state world.old) }
{
    put_late_among(
        alloc,
        task,
        world.nodes.as_mut_slice(),
        &mut world.sequencer,
        at,
        out,
    )
}

fn put_late_among(
    alloc: Global,
    task: &MockTask,
    nodes: &mut [Node<'_>],
    sequencer: &mut Sequencer<'_>,
    at: usize,
    out: &mut Answer,
) -> Result<(), AllocError>
    requires { (m : Machine) × (now : ℕ) × (state : MediatorState) × AreNodesOf m nodes.old sequencer.old
        × Lawful m (world_with now state nodes.old sequencer.old) }
{
    if at < nodes.len() {
        return put_first(alloc, task, &mut nodes[at], sequencer, out);
    }
    Ok(())
}

// Polls the first job to its end, and goes on with the second.
fn put_first(
    alloc: Global,
    task: &MockTask,
    node: &mut Node<'_>,
    sequencer: &mut Sequencer<'_>,
    out: &mut Answer,
) -> Result<(), AllocError>
    requires { (m : Machine) × (p : ParticipantId) × IsParticipant m p node.old sequencer.old }
{
    let Some(mut job) = claimed(alloc, node)? else {
        out.line(&["no job"]);
        return Ok(());
    };
    let place = job.place();
    for _ in 0..job.left() {
        put_poll(task, &mut job, out);
    }
    put_second(alloc, task, node, sequencer, place, out)
}

// Puts the first job back, claims it again as the second, polls that once, goes on with the third, and cancels the second.
fn put_second(
    alloc: Global,
    task: &MockTask,
    node: &mut Node<'_>,
    sequencer: &mut Sequencer<'_>,
    place: u64,
    out: &mut Answer,
) -> Result<(), AllocError>
    requires node { (m : Machine) × (p : ParticipantId) × IsParticipant m p node.old sequencer.old }
    requires owes { owes_there node.old place ≡ true }
{
    give_up(node, place);
    let Some(mut job) = claimed(alloc, node)? else {
        out.line(&["no second job"]);
        return Ok(());
    };
    let place = job.place();
    put_poll(task, &mut job, out);
    put_third(alloc, node, sequencer, place, out)?;
    put_numbered("cancelled ", job.cancel(), out);
    Ok(())
}

// Puts the second job back and claims it as the third, whose verdicts are all found. Then the participant reads an entry more, and gets them.
fn put_third(
    alloc: Global,
    node: &mut Node<'_>,
    sequencer: &mut Sequencer<'_>,
    place: u64,
    out: &mut Answer,
) -> Result<(), AllocError>
    requires node { (m : Machine) × (p : ParticipantId) × IsParticipant m p node.old sequencer.old }
    requires owes { owes_there node.old place ≡ true }
{
    give_up(node, place);
    let Some(job) = claimed(alloc, node)? else {
        out.line(&["no third job"]);
        return Ok(());
    };
    let done = finished(job)?;
    put_decided(node, done.place, out);
    read_on(node, sequencer)?;
    put_decided(node, done.place, out);
    put_end(node, done, out);
    Ok(())
}

// Puts the place from which on the request is decided, if it is.
fn put_decided(node: &Node<'_>, place: u64, out: &mut Answer)
    requires { is_some (notice_at (items_of node.now) place) ≡ true }
{
    match node.decided_at(place) {
        Some(at) => put_numbered("decided at ", at, out),
        None => out.line(&["undecided"]),
    }
}

// Hands a job's verdicts to the participant, and puts what it answers.
fn put_end(node: &mut Node<'_>, done: Finished, out: &mut Answer)
    requires { done.verdicts ≡ owed_there node.old done.place }
{
    if !node.unfinished(done.place) {
        return out.line(&["no claim"]);
    }
    match node.finish_job(done) {
        Ok(()) => out.line(&["answered"]),
        Err(late) => {
            put_numbered("too late for ", late.place, out);
            put_numbered("decided at ", late.decided_at, out);
        }
    }
}

fn put_numbered(words: &str, number: u64, out: &mut Answer) {
    out.put(words);
    out.number(number);
    out.put("\n");
}

//! Plans that are played.
ghost use Rattle.std.specs.Prelude.{◌≤◌, ◌^◌, All, OnOk, length};
ghost use Rattle.world_model.specs.Lawful.{Lawful};
ghost use Rattle.world_model.specs.Machine.{Machine};
ghost use Rattle.world_model.specs.Mediator.{MediatorState};
ghost use Rattle.world_play.specs.Events.{CanHappen, advance_in};
ghost use Rattle.world_play.specs.WorldOf.{IsWorldOf, world_of};

use crate::answer::Answer;
use crate::world::late::put_late_in;
use crate::world::plan::Plan;
use crate::world::telling::put_told;
use confirm_reply::Setup;
use futures::test::MockTask;
use lang_eval::NativeList;
use ledger_terms::ParticipantIdList;
use ledger_terms::limits::MOST_PLACES;
use log_row::LogRow;
use prepare_request::laws::prepared_requests_make_a_machine;
use std::alloc::{AllocError, Global};
use world_play::{World, play, settle};

/// Plays a plan, and puts what is told then at the end.
pub(crate) fn played(
    alloc: Global,
    task: &MockTask,
    setup: &Setup,
    plan: &Plan,
    out: &mut Answer,
) -> Result<(), AllocError>
    requires hosts { length setup.now.topology.hosts ≤ 256 }
    requires time { advance_in plan.now.events ≤ 10 ^ 16 }
    requires within { All (CanHappen setup.now.topology setup.now.checked) plan.now.events }
{
    // the prover learns from this call that there is a machine
    prepared_requests_make_a_machine();
    let natives = NativeList::new(alloc);
    let mut row = LogRow::new(alloc)?;
    let mut world = play(
        alloc,
        setup,
        &natives,
        &mut row,
        MOST_PLACES as u64,
        &plan.events,
    )?;
    let put = match plan.late {
        Some(at) => put_late_in(alloc, task, &mut world, at, out),
        None => put_end(alloc, setup, &natives, &mut world, plan.settles, out),
    };
    world.give_back();
    put
}

// Settles the synchroniser where the plan says so.
fn settle_if<'r>(
    alloc: Global,
    natives: &'r NativeList,
    world: &mut World<'r>,
    settles: bool,
) -> Result<(), AllocError>
    requires { (m : Machine) × (state : MediatorState) × IsWorldOf m state world.old × Lawful m (world_of state world.old) }
    ensures { OnOk result ((m : Machine) × (state : MediatorState) × IsWorldOf m state world.new × Lawful m (world_of state world.new)) }
{
    if settles {
        let paused = ParticipantIdList::new(alloc);
        return settle(alloc, natives, world, &paused, false);
    }
    Ok(())
}

// Settles it if need be, lets all participants read to the end, and puts what they know.
fn put_end<'r>(
    alloc: Global,
    setup: &Setup,
    natives: &'r NativeList,
    world: &mut World<'r>,
    settles: bool,
    out: &mut Answer,
) -> Result<(), AllocError>
    requires { (m : Machine) × (state : MediatorState) × IsWorldOf m state world.old × Lawful m (world_of state world.old) }
{
    settle_if(alloc, natives, world, settles)?;
    world.catch_up()?;
    put_told(alloc, &setup.topology, world, out)
}

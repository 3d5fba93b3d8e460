//! Events, one after another, from an empty log on.
ghost use Rattle.std.specs.Prelude.{◌≡◌, ◌⊎◌, ◌≤◌, ◌^◌, ℕ, All, Contains, Some, length, IfOk};
ghost use Rattle.canton_model.specs.Log.{request_at};
ghost use Rattle.world_model.specs.Headline.{Headline, OneLedger};
ghost use Rattle.world_model.specs.Mediator.{MediatorState};
ghost use Rattle.world_model.specs.Messages.{Request};
ghost use Rattle.world_model.specs.World.{SubmitRaw, new_world, played};
ghost use Rattle.framed_form.specs.Collisions.{Collides};
ghost use Rattle.framed_form.specs.FramedReading.{framed_reading};
ghost use Rattle.world_play.specs.Events.{CanHappen, advance_in, events_of};
ghost use Rattle.node_core.specs.Machines.{machine_of};
ghost use Rattle.world_play.specs.OwnRequests.{IsSubmitted};
ghost use Rattle.world_play.specs.WorldOf.{IsWorldOf, world_of};

use crate::event::EventList;
use crate::happening::happen;
use crate::world::World;
use confirm_reply::Setup;
use lang_eval::NativeList;
use log_row::LogRow;
use prepare_request::laws::{prepared_requests_are_wanted, prepared_requests_make_a_machine};
use std::alloc::{AllocError, Global};

/// A new synchroniser, for the topology and packages of `setup`, after these events, in order. An event that finds nothing to do changes nothing. Its
/// log lies in `row`, and `capacity` is how many places of the log its requests may need in all. An Err is want of memory.
pub fn play<'r>(
    alloc: Global,
    setup: &'r Setup,
    natives: &'r NativeList,
    row: &'r mut LogRow,
    capacity: u64,
    events: &EventList,
) -> Result<World<'r>, AllocError>
    requires hosts { length setup.now.topology.hosts ≤ 256 }
    requires time { advance_in events.now ≤ 10 ^ 16 }
    requires within { All (CanHappen setup.now.topology setup.now.checked) events.now }
    ensures played { IfOk result (λ world.
        let m = machine_of setup.now.topology setup.now.checked capacity in
        (state : MediatorState) × IsWorldOf m state world × (world_of state world ≡ played m (new_world m) (events_of events.now))) }
    ensures headline { IfOk result (λ world. Headline (framed_reading setup.now.topology setup.now.checked) (setup.now.topology).params
        (world.sequencer).list) }
    ensures one_ledger { IfOk result (λ world. (Collides setup.now.topology (world.sequencer).list → ⊥)
        → OneLedger (framed_reading setup.now.topology setup.now.checked) (setup.now.topology).params (world.sequencer).list) }
    ensures own { IfOk result (λ world. (k : ℕ) (request : Request) → request_at (world.sequencer).list k ≡ Some request
        → Contains (events_of events.now) (SubmitRaw request)
        ⊎ IsSubmitted setup.now.topology setup.now.checked (events_of events.now) (world.sequencer).list k request) }
{
    // the prover learns from these calls that there is a machine, and what requests are of
    prepared_requests_make_a_machine();
    prepared_requests_are_wanted();
    let mut world = World::new(alloc, setup, row, capacity)?;
    'events: for event in events.as_slice() {
        happen(alloc, natives, &mut world, event)?;
    }
    Ok(world)
}

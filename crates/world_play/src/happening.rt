//! What each event does to a synchroniser.
ghost use Rattle.std.specs.Prelude.{◌≡◌, ◌+◌, ◌≤◌, ◌^◌, IfOk, OnOk};
ghost use Rattle.ledger_terms.specs.declared.topology.Topology.{Topology};
ghost use Rattle.lang_eval.specs.Found.{Packages};
ghost use Rattle.world_model.specs.Machine.{Machine};
ghost use Rattle.world_model.specs.Mediator.{MediatorState};
ghost use Rattle.world_model.specs.Lawful.{Lawful};
ghost use Rattle.world_model.specs.World.{MediatorRead, GiveVerdict, LoseVerdict, SubmitRaw};
ghost use Rattle.node_core.specs.Bases.{AreBases, Bases};
ghost use Rattle.world_play.specs.Becoming.{Becomes};
ghost use Rattle.world_play.specs.Events.{CanHappen, advance_of, event_of};
ghost use Rattle.world_play.specs.Moves.{event_at};
ghost use Rattle.world_play.specs.Submitting.{AreSetUp};
ghost use Rattle.world_play.specs.WorldOf.{IsWorldOf, world_of};

use crate::deciding::{give, lose, read_next};
use crate::event::Event;
use crate::moving::{NodeMove, move_node};
use crate::submitting::{advance, submit};
use crate::submitting_raw::hand_in_raw;
use crate::world::World;
use canton_model::Request;
use lang_eval::NativeList;
use ledger_terms::ParticipantId;
use std::alloc::{AllocError, Global};

fn move_at<'r>(
    alloc: Global,
    natives: &'r NativeList,
    world: &mut World<'r>,
    node: ParticipantId,
    action: NodeMove,
) -> Result<(), AllocError>
    requires { (m : Machine) × (state : MediatorState) × IsWorldOf m state world.old × Lawful m (world_of state world.old) }
    ensures now { world.new.now ≡ world.old.now }
    ensures set_up { OnOk result ((topology : Topology) (packages : Packages) → AreSetUp topology packages (world.old.nodes).items
        → AreSetUp topology packages (world.new.nodes).items) }
    ensures bases { OnOk result ((bases : Bases) → AreBases bases (world.old.nodes).items
        → AreBases bases (world.new.nodes).items) }
    ensures ok { OnOk result ((m : Machine) (state : MediatorState) → IsWorldOf m state world.old → Lawful m (world_of state world.old)
        → Becomes m (event_at action node) state world.old world.new) }
{
    move_node(
        alloc,
        natives,
        &mut world.nodes,
        &mut world.sequencer,
        node.0 as usize,
        action,
    )
}

#[tactic(auto, using(std::proofs::lemmas::List::Elements::same_from_all_zip))]
fn copy_of(request: &Request) -> Result<Request, AllocError>
    ensures { IfOk result (λ copy. copy ≡ request.now) }
{
    request.clone()
}

fn raw_comes(world: &mut World<'_>, request: &Request) -> Result<(), AllocError>
    ensures now { world.new.now ≡ world.old.now }
    ensures nodes { world.new.nodes ≡ world.old.nodes }
    ensures ok { OnOk result ((m : Machine) (state : MediatorState) → IsWorldOf m state world.old → Lawful m (world_of state world.old)
        → Becomes m (SubmitRaw request.now) state world.old world.new) }
{
    hand_in_raw(world, copy_of(request)?)
}

fn mediator_reads(world: &mut World<'_>) -> Result<(), AllocError>
    requires { (m : Machine) × (state : MediatorState) × IsWorldOf m state world.old × Lawful m (world_of state world.old) }
    ensures now { world.new.now ≡ world.old.now }
    ensures nodes { world.new.nodes ≡ world.old.nodes }
    ensures ok { OnOk result ((m : Machine) (state : MediatorState) → IsWorldOf m state world.old → Lawful m (world_of state world.old)
        → Becomes m MediatorRead state world.old world.new) }
{
    read_next(&mut world.mediator, &mut world.sequencer)
}

fn verdict_comes(world: &mut World<'_>) -> Result<(), AllocError>
    ensures now { world.new.now ≡ world.old.now }
    ensures nodes { world.new.nodes ≡ world.old.nodes }
    ensures ok { OnOk result ((m : Machine) (state : MediatorState) → IsWorldOf m state world.old → Lawful m (world_of state world.old)
        → Becomes m GiveVerdict state world.old world.new) }
{
    give(&mut world.mediator, &mut world.sequencer)
}

fn verdict_is_lost(world: &mut World<'_>) -> Result<(), AllocError>
    ensures now { world.new.now ≡ world.old.now }
    ensures nodes { world.new.nodes ≡ world.old.nodes }
    ensures ok { OnOk result ((m : Machine) (state : MediatorState) → IsWorldOf m state world.old → Lawful m (world_of state world.old)
        → Becomes m LoseVerdict state world.old world.new) }
{
    lose(&mut world.mediator)
}

/// The event happens to the synchroniser. One that finds nothing to do changes nothing. After want of memory it may have happened in part.
pub fn happen<'r>(
    alloc: Global,
    natives: &'r NativeList,
    world: &mut World<'r>,
    event: &Event,
) -> Result<(), AllocError>
    requires now { world.old.now + advance_of event.now ≤ 10 ^ 16 }
    requires lawful { (m : Machine) × (state : MediatorState) × IsWorldOf m state world.old × Lawful m (world_of state world.old) }
    requires within { (topology : Topology) × (packages : Packages) × AreSetUp topology packages (world.old.nodes).items
        × CanHappen topology packages event.now }
    ensures now { OnOk result (world.new.now ≡ world.old.now + advance_of event.now) }
    ensures set_up { OnOk result ((topology : Topology) (packages : Packages) → AreSetUp topology packages (world.old.nodes).items
        → AreSetUp topology packages (world.new.nodes).items) }
    ensures bases { OnOk result ((bases : Bases) → AreBases bases (world.old.nodes).items
        → AreBases bases (world.new.nodes).items) }
    ensures ok { OnOk result ((m : Machine) (state : MediatorState) → IsWorldOf m state world.old → Lawful m (world_of state world.old)
        → Becomes m (event_of event.now) state world.old world.new) }
{
    match event {
        Event::Advance { by } => advance(world, *by),
        Event::Submit { what } => submit(natives, world, what),
        Event::SubmitRaw { request } => raw_comes(world, request),
        Event::NodeRead { node } => move_at(alloc, natives, world, *node, NodeMove::Read),
        Event::Validate { node } => move_at(alloc, natives, world, *node, NodeMove::Validate),
        Event::Reply { node } => move_at(alloc, natives, world, *node, NodeMove::Reply),
        Event::LoseReply { node } => move_at(alloc, natives, world, *node, NodeMove::LoseReply),
        Event::MediatorRead => mediator_reads(world),
        Event::GiveVerdict => verdict_comes(world),
        Event::LoseVerdict => verdict_is_lost(world),
        Event::Pause { node, paused } => {
            move_at(alloc, natives, world, *node, NodeMove::Pause(*paused))
        }
    }
}

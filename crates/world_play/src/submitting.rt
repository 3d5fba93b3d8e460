//! How submissions and Ticks come into the log.
ghost use Rattle.std.specs.Prelude.{◌≡◌, ◌≢◌, ◌+◌, ◌≤◌, ◌^◌, Err, List, Some, slice_get, IfOk, OnErr, OnOk};
ghost use Rattle.std.specs.Result.{result_ok};
ghost use Rattle.ledger_terms.specs.declared.topology.Topology.{Topology};
ghost use Rattle.lang_eval.specs.Found.{Packages};
ghost use Rattle.world_model.specs.Machine.{Machine};
ghost use Rattle.world_model.specs.Mediator.{MediatorState};
ghost use Rattle.world_model.specs.Lawful.{Lawful};
ghost use Rattle.world_model.specs.Locks.{SequencerBehind};
ghost use Rattle.world_model.specs.Messages.{Entry};
ghost use Rattle.world_model.specs.World.{Advance, Submit, happens};
ghost use Rattle.prepare_request.specs.declared.submit_fault.SubmitFault.TheVariants as SubmitFault;
ghost use Rattle.seq_log.specs.Sequenced.{IsFor};
ghost use Rattle.node_core.specs.OverLog.{HasInbox, inbox_over};
ghost use Rattle.node_core.specs.Participant.{Participant};
ghost use Rattle.world_play.specs.Parts.{GoesOn};
ghost use Rattle.world_play.specs.Submitting.{AreSetUp, CanPrepare, CanSubmit, wanted_of};
ghost use Rattle.world_play.specs.WorldOf.{IsWorldOf, world_of};

use crate::handing_in::hand_in_request;
use crate::world::World;
use canton_model::{Message, Request};
use lang_eval::NativeList;
use ledger_terms::Submission;
use node_core::{Node, SubmitFault};
use std::alloc::AllocError;

// The request of an answer, and none where one is refused.
fn request_of(answer: Result<Request, SubmitFault>) -> Result<Option<Request>, AllocError>
    ensures { IfOk result (λ request. (request ≡ result_ok answer) × (answer ≢ Err SubmitFault.Memory)) }
{
    match answer {
        Ok(request) => Ok(Some(request)),
        Err(SubmitFault::Memory) => Err(AllocError),
        Err(_) => Ok(None),
    }
}

// The request that a submission wants, where its participant is there and isn't paused.
fn wanted(
    natives: &NativeList,
    nodes: &[Node<'_>],
    what: &Submission,
    now: u64,
) -> Result<Option<Request>, AllocError>
    requires { (node : Participant) → slice_get nodes.now what.now.participant ≡ Some node → CanPrepare node what.now }
    ensures { IfOk result (λ request. (log : List Entry)
        → ((node : Participant) → slice_get nodes.now what.now.participant ≡ Some node → HasInbox (inbox_over log node) node)
        → request ≡ wanted_of log what.now now (slice_get nodes.now what.now.participant)) }
{
    let at = what.participant.0 as usize;
    if at >= nodes.len() {
        return Ok(None);
    }
    request_of(nodes[at].prepare(natives, what, now))
}

/// The event of a submission: its participant, unless it is paused, hands in the request that the submission wants over what it has read, if it wants
/// one. A request that the sequencer refuses is dropped. Of the log after want of memory no clause says anything.
pub fn submit(
    natives: &NativeList,
    world: &mut World<'_>,
    what: &Submission,
) -> Result<(), AllocError>
    requires lawful { (m : Machine) × (state : MediatorState) × IsWorldOf m state world.old × Lawful m (world_of state world.old) }
    requires within { (topology : Topology) × (packages : Packages) × AreSetUp topology packages (world.old.nodes).items
        × CanSubmit topology packages what.now }
    ensures now { world.new.now ≡ world.old.now }
    ensures nodes { world.new.nodes ≡ world.old.nodes }
    ensures is { (m : Machine) (state : MediatorState) → IsWorldOf m state world.old → IsWorldOf m state world.new }
    ensures ok { OnOk result ((m : Machine) (state : MediatorState) → IsWorldOf m state world.old
        → world_of state world.new ≡ happens m (world_of state world.old) (Submit what.now)) }
{
    if let Some(request) = wanted(natives, world.nodes.as_slice(), what, world.now)? {
        hand_in_request(&mut world.sequencer, request)?;
    }
    Ok(())
}

/// Time moves on by `by` microseconds, and a Tick is appended where these are more than none. After want of memory time stands still, and no Tick has
/// come.
pub fn advance(world: &mut World<'_>, by: u64) -> Result<(), AllocError>
    requires { world.old.now + by ≤ 10 ^ 16 }
    ensures on { GoesOn world.old.sequencer world.new.sequencer }
    ensures now { OnOk result (world.new.now ≡ world.old.now + by) }
    ensures nodes { world.new.nodes ≡ world.old.nodes }
    ensures is { (m : Machine) (state : MediatorState) → IsWorldOf m state world.old → IsWorldOf m state world.new }
    ensures ok { OnOk result ((m : Machine) (state : MediatorState) → IsWorldOf m state world.old
        → world_of state world.new ≡ happens m (world_of state world.old) (Advance by)) }
    ensures behind { (m : Machine) → IsFor m world.old.sequencer → SequencerBehind m (world.old.sequencer).list
        → SequencerBehind m (world.new.sequencer).list }
    ensures err { OnErr result ((world.new.now ≡ world.old.now) × (world.new.sequencer ≡ world.old.sequencer)) }
{
    if by == 0 {
        return Ok(());
    }
    let now = world.now + by;
    match world.sequencer.append(Message::Tick, now) {
        Ok(_) => {
            world.now = now;
            Ok(())
        }
        Err(_) => Err(AllocError),
    }
}

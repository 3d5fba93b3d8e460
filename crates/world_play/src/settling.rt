//! How a synchroniser settles.
ghost use Rattle.std.specs.Prelude.{◌≡◌, OnOk};
ghost use Rattle.ledger_terms.specs.declared.topology.Topology.{Topology};
ghost use Rattle.lang_eval.specs.Found.{Packages};
ghost use Rattle.world_model.specs.Machine.{Machine};
ghost use Rattle.world_model.specs.Mediator.{MediatorState};
ghost use Rattle.world_model.specs.Lawful.{Lawful};
ghost use Rattle.world_model.specs.Settled.{Settled, left, passes};
ghost use Rattle.world_model.specs.Settling.{WorldReady};
ghost use Rattle.node_core.specs.Bases.{AreBases, Bases};
ghost use Rattle.world_play.specs.Parts.{GoesOn};
ghost use Rattle.world_play.specs.Submitting.{AreSetUp};
ghost use Rattle.world_play.specs.WorldOf.{IsWorldOf, world_of};

use crate::pass::pass;
use crate::resuming::resume;
use crate::world::World;
use lang_eval::NativeList;
use ledger_terms::{ParticipantId, ParticipantIdList};
use std::alloc::{AllocError, Global};

// Passes, until one appends nothing.
fn pass_until_settled<'r>(
    alloc: Global,
    natives: &'r NativeList,
    world: &mut World<'r>,
    paused: &[ParticipantId],
    hold_verdicts: bool,
) -> Result<(), AllocError>
    requires { (m : Machine) × (state : MediatorState) × IsWorldOf m state world.old × WorldReady m paused.now (world_of state world.old) }
    ensures on { GoesOn world.old.sequencer world.new.sequencer }
    ensures now { world.new.now ≡ world.old.now }
    ensures lawful { (m : Machine) (state : MediatorState) → IsWorldOf m state world.old → Lawful m (world_of state world.old)
        → (after : MediatorState) × IsWorldOf m after world.new × Lawful m (world_of after world.new) }
    ensures set_up { (topology : Topology) (packages : Packages) → AreSetUp topology packages (world.old.nodes).items
        → AreSetUp topology packages (world.new.nodes).items }
    ensures bases { (bases : Bases) → AreBases bases (world.old.nodes).items
        → AreBases bases (world.new.nodes).items }
    ensures passes { OnOk result ((m : Machine) (state : MediatorState) → IsWorldOf m state world.old
        → WorldReady m paused.now (world_of state world.old)
        → (world.new.sequencer).list
        ≡ passes m world.old.now paused.now hold_verdicts (left m.hosts (world.old.sequencer).list) (world.old.sequencer).list) }
    ensures settled { OnOk result ((m : Machine) (state : MediatorState) → IsWorldOf m state world.old
        → WorldReady m paused.now (world_of state world.old) → Settled m paused.now hold_verdicts (world.new.sequencer).list) }
{
    'passes: loop {
        let before = world.sequencer.len();
        pass(alloc, natives, world, paused, hold_verdicts)?;
        if world.sequencer.len() == before {
            return Ok(());
        }
    }
}

/// First each participant puts back each undecided request that it has read and that lacks its response, and the mediator is given back its verdict on
/// each undecided one that it has read. Then come passes until one appends nothing: whoever isn't one of `paused` has a turn, and then the mediator,
/// which hands in no verdicts where `hold_verdicts`. After want of memory the log may have gone on.
pub fn settle<'r>(
    alloc: Global,
    natives: &'r NativeList,
    world: &mut World<'r>,
    paused: &ParticipantIdList,
    hold_verdicts: bool,
) -> Result<(), AllocError>
    requires lawful { (m : Machine) × (state : MediatorState) × IsWorldOf m state world.old × Lawful m (world_of state world.old) }
    ensures on { GoesOn world.old.sequencer world.new.sequencer }
    ensures now { world.new.now ≡ world.old.now }
    ensures lawful { (m : Machine) (state : MediatorState) → IsWorldOf m state world.old → Lawful m (world_of state world.old)
        → (after : MediatorState) × IsWorldOf m after world.new × Lawful m (world_of after world.new) }
    ensures set_up { (topology : Topology) (packages : Packages) → AreSetUp topology packages (world.old.nodes).items
        → AreSetUp topology packages (world.new.nodes).items }
    ensures bases { (bases : Bases) → AreBases bases (world.old.nodes).items
        → AreBases bases (world.new.nodes).items }
    ensures passes { OnOk result ((m : Machine) (state : MediatorState) → IsWorldOf m state world.old → Lawful m (world_of state world.old)
        → (world.new.sequencer).list
        ≡ passes m world.old.now paused.now hold_verdicts (left m.hosts (world.old.sequencer).list) (world.old.sequencer).list) }
    ensures settled { OnOk result ((m : Machine) (state : MediatorState) → IsWorldOf m state world.old → Lawful m (world_of state world.old)
        → Settled m paused.now hold_verdicts (world.new.sequencer).list) }
{
    resume(world);
    pass_until_settled(alloc, natives, world, paused.as_slice(), hold_verdicts)
}

//! What the mediator does in an event.
ghost use Rattle.std.specs.Prelude.{◌≡◌, ℕ, OnOk};
ghost use Rattle.world_model.specs.Machine.{Machine};
ghost use Rattle.world_model.specs.Mediator.{MediatorState};
ghost use Rattle.world_model.specs.World.{MediatorRead, GiveVerdict, LoseVerdict};
ghost use Rattle.seq_log.specs.Sequenced.{Sequenced};
ghost use Rattle.world_play.specs.Decides.{Decides};
ghost use Rattle.world_play.specs.Parts.{GoesOn, IsMediator};

use crate::handing_in::hand_in_verdict;
use mediator::Mediator;
use seq_log::Sequencer;
use std::alloc::AllocError;

/// The mediator reads the entry at its cursor; where none stands there nothing happens. The log stays. After want of memory the mediator is as before.
pub fn read_next(mediator: &mut Mediator, sequencer: &mut Sequencer<'_>) -> Result<(), AllocError>
    requires { (m : Machine) × (state : MediatorState) × (n : ℕ) × IsMediator m state n mediator.old sequencer.old }
    ensures log { sequencer.new ≡ sequencer.old }
    ensures ok { OnOk result ((m : Machine) (state : MediatorState) (n : ℕ) → IsMediator m state n mediator.old sequencer.old
        → Decides m MediatorRead state sequencer.old mediator.new sequencer.old) }
{
    if let Some(slip) = sequencer.entry(mediator.cursor()) {
        // the prover learns from this call that the place isn't too great
        let _place = slip.place();
        mediator.read(slip.entry())?;
    }
    Ok(())
}

/// The mediator takes its next verdict, which is handed in to the sequencer; without one nothing happens. After want of memory the verdict may be taken
/// and lost.
pub fn give(mediator: &mut Mediator, sequencer: &mut Sequencer<'_>) -> Result<(), AllocError>
    ensures on { GoesOn sequencer.old sequencer.new }
    ensures ok { OnOk result ((m : Machine) (state : MediatorState) (n : ℕ) → IsMediator m state n mediator.old sequencer.old
        → Decides m GiveVerdict state sequencer.old mediator.new sequencer.new) }
{
    if let Some(verdict) = mediator.take_verdict()? {
        hand_in_verdict(sequencer, verdict)?;
    }
    Ok(())
}

/// The mediator takes its next verdict, which is lost; without one nothing happens. After want of memory none was taken.
pub fn lose(mediator: &mut Mediator) -> Result<(), AllocError>
    ensures ok { OnOk result ((m : Machine) (state : MediatorState) (n : ℕ) (log : Sequenced) → IsMediator m state n mediator.old log
        → Decides m LoseVerdict state log mediator.new log) }
{
    let _verdict = mediator.take_verdict()?;
    Ok(())
}

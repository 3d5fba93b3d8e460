//! The mediator's turn in a pass.
ghost use Rattle.std.specs.Prelude.{◌≡◌, ℕ, true, false, length, OnOk};
ghost use Rattle.world_model.specs.Machine.{Machine};
ghost use Rattle.world_model.specs.Mediator.{MediatorState, cases_of};
ghost use Rattle.world_model.specs.Settled.{append_each};
ghost use Rattle.world_model.specs.Turns.{verdict_messages};
ghost use Rattle.world_play.specs.Parts.{GoesOn, HasAll, IsMediator};

use crate::handing_in::hand_in_verdict;
use mediator::Mediator;
use seq_log::Sequencer;
use std::alloc::AllocError;

/// The mediator reads every entry that it hasn't read. After want of memory it has read some of them.
fn read_log(mediator: &mut Mediator, sequencer: &mut Sequencer<'_>) -> Result<(), AllocError>
    requires { (m : Machine) × (state : MediatorState) × (n : ℕ) × IsMediator m state n mediator.old sequencer.old }
    ensures same { sequencer.new ≡ sequencer.old }
    ensures keeps { (m : Machine) (state : MediatorState) (n : ℕ) → IsMediator m state n mediator.old sequencer.old
        → (after : MediatorState) × (k : ℕ) × IsMediator m after k mediator.new sequencer.new }
    ensures ok { OnOk result ((m : Machine) (state : MediatorState) (n : ℕ) → IsMediator m state n mediator.old sequencer.old
        → (after : MediatorState) × IsMediator m after (length sequencer.old.list) mediator.new sequencer.new × (after.given ≡ state.given)) }
{
    'entries: while let Some(slip) = sequencer.entry(mediator.cursor()) {
        // the prover learns from this call that the place isn't too great
        let _place = slip.place();
        mediator.read(slip.entry())?;
    }
    Ok(())
}

/// The mediator takes its verdicts and hands them in, in order. After want of memory one may be taken and lost.
fn give_all(mediator: &mut Mediator, sequencer: &mut Sequencer<'_>) -> Result<(), AllocError>
    requires { (m : Machine) × (state : MediatorState) × (n : ℕ) × IsMediator m state n mediator.old sequencer.old }
    ensures on { GoesOn sequencer.old sequencer.new }
    ensures keeps { (m : Machine) (state : MediatorState) (n : ℕ) → IsMediator m state n mediator.old sequencer.old
        → (after : MediatorState) × IsMediator m after n mediator.new sequencer.new }
    ensures ok { OnOk result ((m : Machine) (state : MediatorState) (n now : ℕ) → IsMediator m state n mediator.old sequencer.old
        → sequencer.new.list ≡ append_each m now sequencer.old.list (verdict_messages state.given state.cases)) }
{
    'verdicts: while let Some(verdict) = mediator.take_verdict()? {
        hand_in_verdict(sequencer, verdict)?;
    }
    Ok(())
}

/// The mediator reads to the end and, unless `hold_verdicts`, hands in its verdicts in order. After want of memory it has read some of the log, and a
/// verdict may be taken and lost.
pub fn mediate(
    mediator: &mut Mediator,
    sequencer: &mut Sequencer<'_>,
    hold_verdicts: bool,
) -> Result<(), AllocError>
    requires { (m : Machine) × (state : MediatorState) × (n : ℕ) × IsMediator m state n mediator.old sequencer.old }
    ensures on { GoesOn sequencer.old sequencer.new }
    ensures keeps { (m : Machine) (state : MediatorState) (n : ℕ) → IsMediator m state n mediator.old sequencer.old
        → (after : MediatorState) × (k : ℕ) × IsMediator m after k mediator.new sequencer.new }
    ensures held { OnOk result (hold_verdicts ≡ true → (m : Machine) (state : MediatorState) (n : ℕ) → IsMediator m state n mediator.old sequencer.old
        → (after : MediatorState) × HasAll m after mediator.new sequencer.old.list × (after.given ≡ state.given) × (sequencer.new ≡ sequencer.old)) }
    ensures given { OnOk result (hold_verdicts ≡ false → (m : Machine) (state : MediatorState) (n now : ℕ)
        → IsMediator m state n mediator.old sequencer.old
        → (after : MediatorState) × HasAll m after mediator.new sequencer.old.list
        × (sequencer.new.list ≡ append_each m now sequencer.old.list (verdict_messages state.given (cases_of m.params sequencer.old.list)))) }
{
    read_log(mediator, sequencer)?;
    if hold_verdicts {
        return Ok(());
    }
    give_all(mediator, sequencer)
}

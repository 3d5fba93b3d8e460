//! How requests come into the log that a client hands in, whoever made them.
ghost use Rattle.std.specs.Prelude.{◌≡◌, ◌++◌, ◌∷◌, [], ℕ, None, Some, IfErr, IfNone, IfOk, IfSome, OnErr, OnOk};
ghost use Rattle.world_model.specs.Messages.{RequestMessage};
ghost use Rattle.world_model.specs.Machine.{Machine};
ghost use Rattle.world_model.specs.Mediator.{MediatorState};
ghost use Rattle.world_model.specs.Lawful.{Lawful};
ghost use Rattle.world_model.specs.Sequencing.{append_fault, entry_after, sequenced};
ghost use Rattle.seq_log.specs.Sequenced.{IsFor, LeftOpen, cause_of, prefix_of};
ghost use Rattle.world_play.specs.Parts.{GoesOn};
ghost use Rattle.world_play.specs.WorldOf.{IsWorldOf, world_of};

use crate::world::World;
use canton_model::{Message, Request};
use log_row::Slip;
use seq_log::{AppendFault, AppendRefusal};
use std::alloc::AllocError;

impl<'r> World<'r> {
    /// Hands in a request, whoever made it, and gives its entry's slip. It is appended where no request of its sender and command stands in the log
    /// yet, it is framed and the log has room for it, unless memory is wanting. A refusal says why, and has the request; then all is as before.
    pub fn submit_raw(&mut self, request: Request) -> Result<Slip<'r>, AppendRefusal>
        ensures on { GoesOn self.old.sequencer self.new.sequencer }
        ensures now { self.new.now ≡ self.old.now }
        ensures nodes { self.new.nodes ≡ self.old.nodes }
        ensures lawful { (m : Machine) (state : MediatorState) → IsWorldOf m state self.old → Lawful m (world_of state self.old)
            → IsWorldOf m state self.new × Lawful m (world_of state self.new) }
        ensures ok { OnOk result ((m : Machine) → IsFor m self.old.sequencer
            → append_fault m (self.old.sequencer).list (RequestMessage request) ≡ None) }
        ensures entry { OnOk result ((self.new.sequencer).list ≡ (self.old.sequencer).list
            ++ entry_after self.old.now (self.old.sequencer).list (RequestMessage request) ∷ []) }
        ensures slip { IfOk result (λ slip. slip ≡ prefix_of self.new.sequencer) }
        ensures err { OnErr result (self.new ≡ self.old) }
        ensures message { IfErr result (λ refusal. refusal.message ≡ RequestMessage request) }
        ensures cause { IfErr result (λ refusal. (m : Machine) → IsFor m self.old.sequencer
            → IfSome (cause_of refusal.fault) (λ cause. append_fault m (self.old.sequencer).list (RequestMessage request) ≡ Some cause)) }
        ensures memory { IfErr result (λ refusal. (m : Machine) → IsFor m self.old.sequencer
            → IfNone (cause_of refusal.fault) (LeftOpen (append_fault m (self.old.sequencer).list (RequestMessage request)))) }
    {
        // a request has its time from the entry before it, so no other time is told
        self.sequencer.append(Message::Request(request), 0)
    }
}

/// Hands in the request, and drops it where it is refused. After want of memory all is as before.
pub fn hand_in_raw(world: &mut World<'_>, request: Request) -> Result<(), AllocError>
    ensures on { GoesOn world.old.sequencer world.new.sequencer }
    ensures now { world.new.now ≡ world.old.now }
    ensures nodes { world.new.nodes ≡ world.old.nodes }
    ensures lawful { (m : Machine) (state : MediatorState) → IsWorldOf m state world.old → Lawful m (world_of state world.old)
        → IsWorldOf m state world.new × Lawful m (world_of state world.new) }
    ensures ok { OnOk result ((m : Machine) (now : ℕ) → IsFor m world.old.sequencer
        → (world.new.sequencer).list ≡ sequenced m now (world.old.sequencer).list (RequestMessage request)) }
    ensures err { OnErr result (world.new ≡ world.old) }
{
    match world.submit_raw(request) {
        Ok(_) => Ok(()),
        Err(AppendRefusal { fault, .. }) => match fault {
            AppendFault::Memory => Err(AllocError),
            _ => Ok(()),
        },
    }
}

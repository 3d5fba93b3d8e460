//! How requests, responses and verdicts are handed in to the sequencer.
ghost use Rattle.std.specs.Prelude.{◌≡◌, ℕ, OnErr, OnOk};
ghost use Rattle.world_model.specs.Messages.{RequestMessage, ResponseMessage, VerdictMessage};
ghost use Rattle.world_model.specs.Machine.{Machine};
ghost use Rattle.world_model.specs.Sequencing.{sequenced};
ghost use Rattle.world_model.specs.Fits.{MayStand};
ghost use Rattle.world_model.specs.Locks.{SequencerBehind};
ghost use Rattle.seq_log.specs.Sequenced.{IsFor};
ghost use Rattle.world_play.specs.Parts.{GoesOn};

use canton_model::{Message, Request, Response, Verdict};
use seq_log::{AppendFault, AppendRefusal, Sequencer};
use std::alloc::AllocError;

// A message that isn't a Tick has its time from the entry before, so no other time is told.
fn hand_in(sequencer: &mut Sequencer<'_>, message: Message) -> Result<(), AllocError>
    ensures on { GoesOn sequencer.old sequencer.new }
    ensures ok { OnOk result ((m : Machine) → IsFor m sequencer.old → sequencer.new.list ≡ sequenced m 0 sequencer.old.list message) }
    ensures err { OnErr result (sequencer.new ≡ sequencer.old) }
    ensures behind { (m : Machine) → IsFor m sequencer.old → SequencerBehind m sequencer.old.list → MayStand m sequencer.old.list message
        → SequencerBehind m sequencer.new.list }
{
    match sequencer.append(message, 0) {
        Ok(_) => Ok(()),
        Err(AppendRefusal { fault, .. }) => match fault {
            AppendFault::Memory => Err(AllocError),
            _ => Ok(()),
        },
    }
}

/// Appends the response. One that stands in the log already, or comes too late, is dropped. After want of memory all is as before.
pub fn hand_in_response(sequencer: &mut Sequencer<'_>, response: Response) -> Result<(), AllocError>
    ensures on { GoesOn sequencer.old sequencer.new }
    ensures ok { OnOk result ((m : Machine) (now : ℕ) → IsFor m sequencer.old
        → sequencer.new.list ≡ sequenced m now sequencer.old.list (ResponseMessage response)) }
    ensures err { OnErr result (sequencer.new ≡ sequencer.old) }
    ensures behind { (m : Machine) → IsFor m sequencer.old → SequencerBehind m sequencer.old.list
        → MayStand m sequencer.old.list (ResponseMessage response) → SequencerBehind m sequencer.new.list }
{
    hand_in(sequencer, Message::Response(response))
}

/// Appends the verdict. One that stands in the log already, or comes too late, is dropped. After want of memory all is as before.
pub fn hand_in_verdict(sequencer: &mut Sequencer<'_>, verdict: Verdict) -> Result<(), AllocError>
    ensures on { GoesOn sequencer.old sequencer.new }
    ensures ok { OnOk result ((m : Machine) (now : ℕ) → IsFor m sequencer.old
        → sequencer.new.list ≡ sequenced m now sequencer.old.list (VerdictMessage verdict)) }
    ensures err { OnErr result (sequencer.new ≡ sequencer.old) }
    ensures behind { (m : Machine) → IsFor m sequencer.old → SequencerBehind m sequencer.old.list
        → MayStand m sequencer.old.list (VerdictMessage verdict) → SequencerBehind m sequencer.new.list }
{
    hand_in(sequencer, Message::Verdict(verdict))
}

/// Appends the request. One whose sender and command stand in the log already, that isn't framed, or for which there is no room, is dropped. After want
/// of memory all is as before.
pub fn hand_in_request(sequencer: &mut Sequencer<'_>, request: Request) -> Result<(), AllocError>
    ensures on { GoesOn sequencer.old sequencer.new }
    ensures ok { OnOk result ((m : Machine) (now : ℕ) → IsFor m sequencer.old
        → sequencer.new.list ≡ sequenced m now sequencer.old.list (RequestMessage request)) }
    ensures err { OnErr result (sequencer.new ≡ sequencer.old) }
    ensures behind { (m : Machine) → IsFor m sequencer.old → SequencerBehind m sequencer.old.list → SequencerBehind m sequencer.new.list }
{
    hand_in(sequencer, Message::Request(request))
}

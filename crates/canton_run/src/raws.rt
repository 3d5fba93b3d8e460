//! The raw requests of a round.
ghost use Rattle.std.specs.Prelude.{◌≡◌, ℕ, map, IfOk, OnOk};
ghost use Rattle.world_model.specs.Machine.{Machine};
ghost use Rattle.world_model.specs.Mediator.{MediatorState};
ghost use Rattle.world_model.specs.Lawful.{Lawful};
ghost use Rattle.world_model.specs.Rounds.{handed_in};
ghost use Rattle.seq_log.specs.Sequenced.{IsFor};
ghost use Rattle.world_play.specs.WorldOf.{IsWorldOf, world_of};
ghost use Rattle.canton_run.specs.Answered.{envelope_of, request_of, requests_of};

use canton_model::{Envelope, EnvelopeList, Request, SharedBytes};
use ledger_terms::{Bytes, Exact, RawEnvelope, RawEnvelopeList, RawRequest, RawRequestList};
use std::alloc::{AllocError, Global};
use world_play::{World, hand_in_raw};

fn shared_of(alloc: Global, bytes: &Bytes) -> Result<SharedBytes, AllocError>
    ensures { IfOk result (λ shared. shared ≡ bytes.now) }
{
    SharedBytes::new(alloc, bytes.copied()?)
}

fn envelope_of(alloc: Global, raw: &RawEnvelope) -> Result<Envelope, AllocError>
    ensures { IfOk result (λ envelope. envelope ≡ envelope_of raw.now) }
{
    let bytes = shared_of(alloc, &raw.bytes)?;
    Ok(Envelope { to: raw.to, bytes })
}

fn envelopes_of(alloc: Global, raws: &RawEnvelopeList) -> Result<EnvelopeList, AllocError>
    ensures { IfOk result (λ envelopes. envelopes ≡ map envelope_of raws.now) }
{
    let mut envelopes = EnvelopeList::new(alloc);
    'raws: for raw in raws.as_slice() {
        envelopes.push(envelope_of(alloc, raw)?)?;
    }
    Ok(envelopes)
}

fn request_of(alloc: Global, raw: &RawRequest) -> Result<Request, AllocError>
    ensures { IfOk result (λ request. request ≡ request_of raw.now) }
{
    let confirming = raw.confirming.copied()?;
    let mediator = shared_of(alloc, &raw.mediator)?;
    let envelopes = envelopes_of(alloc, &raw.envelopes)?;
    Ok(Request {
        sender: raw.participant,
        command: raw.command,
        confirming,
        mediator,
        envelopes,
    })
}

/// Hands in a round's raw requests, in order. One that stands in the log already, that isn't framed, or for which there is no room,
/// leaves no trace. After want of memory some were handed in.
pub fn hand_in_raws(
    alloc: Global,
    world: &mut World<'_>,
    raws: &RawRequestList,
) -> Result<(), AllocError>
    ensures now { world.new.now ≡ world.old.now }
    ensures nodes { world.new.nodes ≡ world.old.nodes }
    ensures lawful { (m : Machine) (state : MediatorState) → IsWorldOf m state world.old → Lawful m (world_of state world.old)
        → IsWorldOf m state world.new × Lawful m (world_of state world.new) }
    ensures log { OnOk result ((m : Machine) (now : ℕ) → IsFor m world.old.sequencer
        → (world.new.sequencer).list ≡ handed_in m now (world.old.sequencer).list (requests_of raws.now)) }
{
    'raws: for raw in raws.as_slice() {
        hand_in_raw(world, request_of(alloc, raw)?)?;
    }
    Ok(())
}

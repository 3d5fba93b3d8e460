//! Events from words.
ghost use Rattle.std.specs.Prelude.{All, IfSome};
ghost use Rattle.ledger_terms.specs.declared.topology.Topology.{Topology};
ghost use Rattle.lang_eval.specs.Found.{Packages};
ghost use Rattle.world_play.specs.Events.{CanHappen};
ghost use Rattle.world_play.specs.Submitting.{CanSubmit};

use crate::world::handed_in::HandedIn;
use canton_model::Request;
use confirm_reply::Setup;
use ledger_terms::{ParticipantId, Submission, Topology};
use world_play::Event;

/// The event that a word says. A submission or a raw request is taken from the front of those that are left. None: the word says no event, or none of
/// these is left.
pub(crate) fn event_of(setup: &Setup, left: &mut HandedIn, word: &str) -> Option<Event>
    requires { All (CanSubmit setup.now.topology setup.now.checked) left.old.submits.items }
    ensures event { IfSome result (CanHappen setup.now.topology setup.now.checked) }
    ensures left { All (CanSubmit setup.now.topology setup.now.checked) left.new.submits.items }
{
    match word {
        "submit" => next_submission(&mut left.submits),
        "raw" => next_raw(&mut left.raws),
        _ => plain_event(&setup.topology, word),
    }
}

/// The submission of the first that is left, which is taken out. None: none is left.
#[tactic(auto, using(crate::proofs::Fronts::front_holds, crate::proofs::Fronts::others_hold))]
fn next_submission(left: &mut Vec<Submission>) -> Option<Event>
    ensures event { (topology : Topology) (packages : Packages) → All (CanSubmit topology packages) left.old.items
        → IfSome result (CanHappen topology packages) }
    ensures left { (topology : Topology) (packages : Packages) → All (CanSubmit topology packages) left.old.items
        → All (CanSubmit topology packages) left.new.items }
{
    if left.is_empty() {
        return None;
    }
    Some(Event::Submit {
        what: left.remove(0),
    })
}

/// The handing in of the first raw request that is left, which is taken out. None: none is left.
fn next_raw(left: &mut Vec<Request>) -> Option<Event>
    ensures { (topology : Topology) (packages : Packages) → IfSome result (CanHappen topology packages) }
{
    if left.is_empty() {
        return None;
    }
    Some(Event::SubmitRaw {
        request: left.remove(0),
    })
}

// An event that hands nothing in.
fn plain_event(topology: &Topology, word: &str) -> Option<Event>
    ensures { (topology : Topology) (packages : Packages) → IfSome result (CanHappen topology packages) }
{
    match word {
        "mediator" => Some(Event::MediatorRead),
        "verdict" => Some(Event::GiveVerdict),
        "lose-verdict" => Some(Event::LoseVerdict),
        _ => event_with(topology, word),
    }
}

// An event with something behind a colon.
fn event_with(topology: &Topology, word: &str) -> Option<Event>
    ensures { (topology : Topology) (packages : Packages) → IfSome result (CanHappen topology packages) }
{
    let (verb, rest) = word.split_once(':')?;
    if verb == "advance" {
        let by = rest.parse::<u64>().ok()?;
        return Some(Event::Advance { by });
    }
    let node = participant_of(topology, rest)?;
    event_at(verb, node)
}

/// The event of a participant that a word before a colon says.
fn event_at(verb: &str, node: ParticipantId) -> Option<Event>
    ensures { (topology : Topology) (packages : Packages) → IfSome result (CanHappen topology packages) }
{
    match verb {
        "read" => Some(Event::NodeRead { node }),
        "validate" => Some(Event::Validate { node }),
        "reply" => Some(Event::Reply { node }),
        "lose" => Some(Event::LoseReply { node }),
        "pause" => Some(Event::Pause { node, paused: true }),
        "wake" => Some(Event::Pause {
            node,
            paused: false,
        }),
        _ => None,
    }
}

/// The participant with a name. None: the topology has none.
pub(crate) fn participant_of(topology: &Topology, name: &str) -> Option<ParticipantId> {
    let at = place_of(topology, name)?;
    Some(ParticipantId((at % 256) as u8))
}

/// The index of the participant with a name. None: the topology has none.
pub(crate) fn place_of(topology: &Topology, name: &str) -> Option<usize> {
    let mut at = 0usize;
    for host in topology.hosts.as_slice() {
        if host.name.as_str() == name {
            return Some(at);
        }
        at = at.wrapping_add(1);
    }
    None
}

//! Whether a request comes from who sent it.
ghost use Rattle.std.specs.Prelude.{◌≡◌};
ghost use Rattle.std.specs.List.{list_all};
ghost use Rattle.ledger_terms.specs.Hosting.{confirms_at};
ghost use Rattle.canton_model.specs.Checks.{are_confirmed, is_from};
ghost use Rattle.view_split.specs.Placed.{shown_by};
ghost use Rattle.confirm_reply.specs.LocalReading.{is_named_at};
ghost use Rattle.confirm_reply.specs.Verdict.{reading_by};

use crate::opened_input::OpenedInput;
use ledger_terms::{Name, ParticipantId, PartySet, Topology};

fn is_named(topology: &Topology, at: ParticipantId, name: Name) -> bool
    ensures { result ≡ is_named_at topology.now.hosts at name }
{
    match topology.host(at) {
        Some(host) => host.name == name,
        None => false,
    }
}

fn confirms_all(topology: &Topology, at: ParticipantId, parties: &PartySet) -> bool
    ensures { result ≡ list_all (confirms_at topology.now.hosts at) parties.now }
{
    parties
        .as_slice()
        .iter()
        .all(|party| topology.confirms(at, *party))
}

// Whether a participant confirms for each of the parties, where they are told.
fn are_confirmed(topology: &Topology, at: ParticipantId, parties: &Option<PartySet>) -> bool
    ensures { result ≡ are_confirmed (confirms_at topology.now.hosts at) parties.now }
{
    match parties {
        Some(parties) => confirms_all(topology, at, parties),
        None => true,
    }
}

/// Whether the name that is shown is the sender's, and the sender confirms for each of the requesters, where they are told.
pub(crate) fn is_from_sender(input: &OpenedInput<'_>) -> bool
    ensures { result ≡ is_from (reading_by input.now) input.now.sender (shown_by input.now.tree.now) }
{
    let topology = &input.setup.topology;
    let is_named = is_named(topology, input.sender, input.tree.sender);
    let are_confirmed = are_confirmed(topology, input.sender, &input.tree.requesters);
    is_named && are_confirmed
}

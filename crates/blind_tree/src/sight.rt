//! Who sees the views of a transaction.
ghost use Rattle.std.specs.Prelude.{◌≡◌};
ghost use Rattle.std.specs.List.{list_any};
ghost use Rattle.ledger_terms.specs.Hosting.{hosts_at};
ghost use Rattle.blind_tree.specs.Blind.{has_sight};

use ledger_terms::{ParticipantId, PartySet, Topology};
use view_split::ViewList;

/// Whether the participant at an index sees one of these views or of those below them: it hosts an informee of one (Canton
/// protocol: informee participants). Then it is a recipient of their transaction.
pub fn sees_any_view(views: &ViewList, topology: &Topology, at: ParticipantId) -> bool
    ensures { result ≡ has_sight (hosts_at topology.now.hosts at) views.now }
{
    for view in views.as_slice() {
        let informees = &view.root.informees;
        if hosts_any(topology, at, informees) || sees_any_view(&view.below, topology, at) {
            return true;
        }
    }
    false
}

/// Whether a participant hosts one of these parties.
pub(crate) fn hosts_any(topology: &Topology, at: ParticipantId, parties: &PartySet) -> bool
    ensures { result ≡ list_any (hosts_at topology.now.hosts at) parties.now }
{
    parties
        .as_slice()
        .iter()
        .any(|party| topology.hosts(at, *party))
}

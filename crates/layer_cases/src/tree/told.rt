//! What the mediator reads of a request.
use crate::answer::Answer;
use crate::tree::given::Sent;
use blind_tree::ViewRoles;
use ledger_terms::{ParticipantId, PartySet, Topology};
use proto_model::requested_views;
use std::alloc::Global;

/// Puts who sends a request at the end, as the mediator is told, and who sees and confirms each view.
pub(crate) fn put_told(alloc: Global, sent: Sent<'_>, out: &mut Answer) {
    match requested_views(alloc, sent.request) {
        Ok(Some(told)) => {
            out.line(&["told mediator", told.sender.as_str()]);
            for view in told.views.as_slice() {
                put_view(sent.topology, view, out);
            }
        }
        Ok(None) => out.line(&["nothing told"]),
        Err(_) => out.lack(),
    }
}

/// Puts two lines of a view at the end: its path, its informees and the participants that see it for them, and its confirmers and the
/// participants that confirm for them.
fn put_view(topology: &Topology, view: &ViewRoles, out: &mut Answer) {
    out.put("view ");
    out.path(&view.path);
    put_parties(topology, &view.informees, Tie::Hosts, out);
    out.put("confirmed ");
    out.path(&view.path);
    put_parties(topology, &view.confirmers, Tie::Confirms, out);
}

/// What ties a participant to parties.
#[derive(Clone, Copy)]
enum Tie {
    Hosts,
    Confirms,
}

/// Whether a participant is tied so to one of the parties.
fn is_tied(topology: &Topology, at: ParticipantId, parties: &PartySet, tie: Tie) -> bool {
    match tie {
        Tie::Hosts => topology.hosts_any(at, parties),
        Tie::Confirms => topology.confirms_any(at, parties),
    }
}

/// Puts parties at the end of a line, and the participants that are tied to one of them.
fn put_parties(topology: &Topology, parties: &PartySet, tie: Tie, out: &mut Answer) {
    out.put(" ");
    out.names(parties.as_slice());
    out.put(" on ");
    let mut is_first = true;
    for (at, host) in (0..=255u8).zip(topology.hosts.as_slice()) {
        if is_tied(topology, ParticipantId(at), parties, tie) {
            if !is_first {
                out.put(",");
            }
            out.put(host.name.as_str());
            is_first = false;
        }
    }
    out.put("\n");
}

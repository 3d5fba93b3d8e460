//! Whether a request is framed.
ghost use Rattle.std.specs.Prelude.{◌≡◌, ◌≤◌, Ok, Some, IfOk, IfSome, is_some, length};
ghost use Rattle.std.specs.List.{list_all, list_any};
ghost use Rattle.ledger_terms.specs.Hosting.{confirms_at, lists_party};
ghost use Rattle.blind_tree.specs.Opening.{informee_tree_of};
ghost use Rattle.blind_tree.specs.ShownViews.{is_plain};
ghost use Rattle.blind_tree.specs.VertexLists.{one_vertex};
ghost use Rattle.blind_tree.specs.declared.view_roles.ViewRoles.{ViewRoles};
ghost use Rattle.framed_form.specs.Framed.{are_bytes, are_envelopes_framed, are_views_framed, asked_by, hides_contents, is_confirmed};
ghost use Rattle.framed_form.specs.Framed.{is_framed, is_short, is_tree_framed, same_participants};
ghost use Rattle.framed_form.specs.Outlines.{IsOutline};
ghost use Rattle.sealed_form.specs.Within.{is_hosted};

use crate::outline::{Outline, outline_of};
use crate::told_tree::{ToldTree, read_told_tree};
use blind_tree::{Leaf, RolesTree, Vertex, VertexList, ViewRoles, ViewRolesList};
use canton_model::{EnvelopeList, Request};
use ledger_terms::limits::MOST_TREE_BYTES;
use ledger_terms::{Name, ParticipantId, ParticipantIdList, PartySet, Topology};
use std::alloc::{AllocError, Global};

/// What the mediator's bytes of a request tell where the request is framed, and None where it isn't. The bytes are read once. Err is want of memory.
#[tactic(auto, unfolding(crate::specs::Framed::is_framed))]
pub fn framed_outline(
    alloc: Global,
    topology: &Topology,
    request: &Request,
) -> Result<Option<Outline>, AllocError>
    requires { length topology.now.hosts ≤ 256 }
    ensures framed { IfOk result (λ o. is_some o ≡ is_framed topology.now request.now) }
    ensures outline { IfOk result (λ o. IfSome o (λ outline. IsOutline request.now outline)) }
{
    let hosts = topology.hosts.len();
    if request.sender.0 as usize >= hosts {
        return Ok(None);
    }
    let bytes = request.mediator.as_slice();
    if !is_short(bytes) || !are_envelopes_framed(&request.envelopes, hosts) {
        return Ok(None);
    }
    let Some(told) = read_told_tree(alloc, request)? else {
        return Ok(None);
    };
    if !is_tree_framed(topology, &request.confirming, &told) {
        return Ok(None);
    }
    Ok(Some(outline_of(alloc, told)?))
}

/// Whether a request is framed, so that the sequencer takes it from anybody. Err is want of memory.
pub fn framed(alloc: Global, topology: &Topology, request: &Request) -> Result<bool, AllocError>
    requires { length topology.now.hosts ≤ 256 }
    ensures { IfOk result (λ is. is ≡ is_framed topology.now request.now) }
{
    let outline = framed_outline(alloc, topology, request)?;
    Ok(outline.is_some())
}

fn is_short(bytes: &[u8]) -> bool
    ensures { result ≡ is_short bytes.now }
{
    bytes.len() <= MOST_TREE_BYTES && are_bytes(bytes)
}

// Bytes are bytes. It is asked so that the contracts here can say what the types keep.
fn are_bytes(bytes: &[u8]) -> bool
    ensures { result ≡ are_bytes bytes.now }
{
    let _len = bytes.len();
    true
}

fn are_envelopes_framed(envelopes: &EnvelopeList, hosts: usize) -> bool
    ensures { result ≡ are_envelopes_framed 0 hosts envelopes.now }
{
    let mut next = 0;
    for envelope in envelopes.as_slice() {
        let to = envelope.to.0 as usize;
        if to < next || to >= hosts || !is_short(envelope.bytes.as_slice()) {
            return false;
        }
        next = to + 1;
    }
    true
}

fn is_tree_framed(topology: &Topology, confirming: &ParticipantIdList, told: &ToldTree) -> bool
    requires hosts { length topology.now.hosts ≤ 256 }
    requires tells { informee_tree_of told.now.tree ≡ Ok told.now.roles }
    ensures { result ≡ is_tree_framed topology.now confirming.now (Some told.now.tree) }
{
    !is_plain(&told.tree.requesters)
        && hides_contents(&told.tree.views)
        && are_views_framed(topology, confirming, &told.roles)
}

fn is_plain(leaf: &Leaf) -> bool
    ensures { result ≡ is_plain leaf.now }
{
    match leaf {
        Leaf::Blind(_) => false,
        Leaf::Plain { .. } => true,
    }
}

// Whether no vertex shows its contents.
#[cycle(hides)]
fn hides_contents(vertices: &VertexList) -> bool
    ensures { result ≡ hides_contents vertices.now }
{
    for vertex in vertices.as_slice() {
        if !hides_its_contents(vertex) {
            return false;
        }
    }
    true
}

#[cycle(hides)]
#[tactic(auto, using(crate::proofs::FramedParts::hides_one))]
fn hides_its_contents(vertex: &Vertex) -> bool
    ensures { result ≡ hides_contents (one_vertex vertex.now) }
{
    match vertex {
        Vertex::Blind(_) => true,
        Vertex::Inner {
            contents,
            subviews,
            ..
        } => !is_plain(contents) && hides_contents(subviews),
    }
}

fn are_views_framed(topology: &Topology, confirming: &ParticipantIdList, roles: &RolesTree) -> bool
    requires { length topology.now.hosts ≤ 256 }
    ensures { result ≡ are_views_framed topology.now confirming.now (Some roles.now) }
{
    roles.views.len() > 0
        && are_confirmed(topology, &roles.views)
        && are_asked(topology, &roles.views, confirming)
}

fn are_confirmed(topology: &Topology, views: &ViewRolesList) -> bool
    ensures { result ≡ list_all (is_confirmed topology.now) views.now }
{
    views
        .as_slice()
        .iter()
        .all(|view| is_confirmed(topology, view))
}

fn is_confirmed(topology: &Topology, view: &ViewRoles) -> bool
    ensures { result ≡ is_confirmed topology.now view.now }
{
    view.confirmers.len() > 0
        && view.confirmers.subset(&view.informees)
        && are_parties(topology, &view.informees)
}

fn are_parties(topology: &Topology, parties: &PartySet) -> bool
    ensures { result ≡ list_all (is_hosted topology.now) parties.now }
{
    parties
        .as_slice()
        .iter()
        .all(|party| is_party(topology, *party))
}

fn is_party(topology: &Topology, party: Name) -> bool
    ensures { result ≡ is_hosted topology.now party }
{
    is_listed(topology, party)
}

fn is_listed(topology: &Topology, party: Name) -> bool
    ensures { result ≡ list_any (lists_party party) topology.now.hosts }
{
    topology
        .hosts
        .as_slice()
        .iter()
        .any(|host| host.parties.contains(party))
}

// Whether just those are asked that confirm for one of these views, in the order of the topology.
fn are_asked(topology: &Topology, views: &ViewRolesList, confirming: &ParticipantIdList) -> bool
    requires { length topology.now.hosts ≤ 256 }
    ensures { result ≡ same_participants confirming.now (asked_by topology.now views.now) }
{
    let asked = confirming.as_slice();
    let mut next = 0;
    for at in 0..topology.hosts.len() {
        if confirms_any(topology, ParticipantId((at % 256) as u8), views) {
            if next >= asked.len() {
                return false;
            }
            let p = asked[next];
            if p.0 as usize != at {
                return false;
            }
            next += 1;
        }
    }
    next == asked.len()
}

fn confirms_any(topology: &Topology, at: ParticipantId, views: &ViewRolesList) -> bool
    ensures { result ≡ list_any (λ (view : ViewRoles). list_any (confirms_at topology.now.hosts at) view.confirmers) views.now }
{
    views
        .as_slice()
        .iter()
        .any(|view| topology.confirms_any(at, &view.confirmers))
}

//! The complete envelopes of a request.
ghost use Rattle.std.specs.Prelude.{◌≡◌, ◌++◌, IfOk, OnOk, option_to_list};
ghost use Rattle.canton_model.specs.declared.request.Request.{Request};
ghost use Rattle.framed_form.specs.FramedForm.{complete_in};
ghost use Rattle.framed_form.specs.Outlines.{IsOutline};
ghost use Rattle.whole_request.specs.Completes.{complete_of, completes, requesters_among, requesters_told, shown};

use crate::part::Part;
use blind_tree::{OpenedFor, OpenedTree, Tree, opened_for};
use canton_model::{Envelope, Request};
use ledger_terms::{Exact, PartySet, PathList, Topology};
use proto_model::{Outline, has_root, if_known, seen_among, tree_in};
use std::alloc::{AllocError, Global};

/// An envelope that opens to its recipient all that it is to see: the paths of these views, the requesters where it is told of them,
/// and the tree.
#[derive(Drop)]
pub(crate) struct Complete {
    pub(crate) seen: PathList,
    pub(crate) requesters: Option<PartySet>,
    pub(crate) tree: Tree,
}

/// The complete envelopes of a request, in their order.
pub(crate) fn complete_envelopes(
    alloc: Global,
    topology: &Topology,
    request: &Request,
    outline: &Outline,
) -> Result<Vec<Complete>, AllocError>
    requires { IsOutline request.now outline.now }
    ensures { IfOk result (λ found. found.items ≡ completes topology.now request.now request.now.envelopes) }
{
    let mut found = Vec::new(alloc);
    for envelope in request.envelopes.as_slice() {
        let complete = read_complete(alloc, topology, outline, envelope)?;
        put_complete(complete, &mut found)?;
    }
    Ok(found)
}

fn put_complete(complete: Option<Complete>, out: &mut Vec<Complete>) -> Result<(), AllocError>
    ensures { OnOk result (out.new.items ≡ out.old.items ++ option_to_list complete) }
{
    if let Some(complete) = complete {
        out.push(complete)?;
    }
    Ok(())
}

// What one envelope opens, where it is complete; else None.
fn read_complete(
    alloc: Global,
    topology: &Topology,
    outline: &Outline,
    envelope: &Envelope,
) -> Result<Option<Complete>, AllocError>
    ensures { IfOk result (λ complete. (request : Request) → IsOutline request outline.now → complete ≡ complete_of topology.now request envelope.now) }
{
    let seen = seen_among(alloc, topology, envelope.to, &outline.views)?;
    let bytes = envelope.bytes.as_slice();
    let offered = opened_for(alloc, bytes, &outline.root, &seen, has_root(&seen))?;
    let Some(opened) = opened_in(if_known(alloc, topology, offered)?) else {
        return Ok(None);
    };
    let Some(tree) = tree_in(alloc, bytes)? else {
        return Ok(None);
    };
    let requesters = opened.requesters;
    Ok(Some(Complete {
        seen,
        requesters,
        tree,
    }))
}

fn opened_in(offered: OpenedFor) -> Option<OpenedTree>
    ensures { result ≡ complete_in offered }
{
    match offered {
        OpenedFor::Mismatch => None,
        OpenedFor::Missing => None,
        OpenedFor::Open(opened) => Some(opened),
    }
}

/// What each of these complete envelopes shows of the root views, in order.
pub(crate) fn parts_of<'a>(
    alloc: Global,
    envelopes: &'a [Complete],
) -> Result<Vec<Part<'a>>, AllocError>
    ensures { IfOk result (λ parts. parts.items ≡ shown envelopes.now) }
{
    let mut parts = Vec::new(alloc);
    for envelope in envelopes {
        parts.push(Part::new(&envelope.seen, &envelope.tree.views))?;
    }
    Ok(parts)
}

/// The requesters, from the first complete envelope to a participant that sees a root view. None where there is none.
pub(crate) fn requesters_among(envelopes: &[Complete]) -> Result<Option<PartySet>, AllocError>
    ensures { IfOk result (λ requesters. requesters ≡ requesters_among envelopes.now) }
{
    for envelope in envelopes {
        if let Some(requesters) = requesters_told(envelope)? {
            return Ok(Some(requesters));
        }
    }
    Ok(None)
}

fn requesters_told(envelope: &Complete) -> Result<Option<PartySet>, AllocError>
    ensures { IfOk result (λ requesters. requesters ≡ requesters_told envelope.now) }
{
    if has_root(&envelope.seen) {
        copied(&envelope.requesters)
    } else {
        Ok(None)
    }
}

fn copied(requesters: &Option<PartySet>) -> Result<Option<PartySet>, AllocError>
    ensures { IfOk result (λ copy. copy ≡ requesters.now) }
{
    match requesters {
        Some(requesters) => Ok(Some(requesters.copied()?)),
        None => Ok(None),
    }
}

//! What a participant reads of a request that anybody may have sent.
ghost use Rattle.std.specs.Prelude.{◌≡◌, ◌||◌, false, nat_eq, true, IfNone, IfOk, IfSome};
ghost use Rattle.std.specs.List.{list_any};
ghost use Rattle.ledger_model.specs.Opening.{is_root_path};
ghost use Rattle.lang_eval.specs.Found.{Packages};
ghost use Rattle.blind_tree.specs.OpenedFor.{opened_for_root};
ghost use Rattle.canton_model.specs.Reading.{is_recipient, is_some_path};
ghost use Rattle.framed_form.specs.FramedForm.{if_known, offered, paths_seen, root_of};
ghost use Rattle.framed_form.specs.FramedReading.{framed_reading};
ghost use Rattle.framed_form.specs.Outlines.{IsOutline};
ghost use Rattle.proto_model.specs.Notices.{IsNotice};

use crate::naming::names_known;
use crate::opening::envelope_of;
use crate::seeing::{confirmed_among, has_root, seen_among};
use blind_tree::{OpenedFor, opened_beside, opened_for};
use canton_model::Request;
use framed_form::{Outline, tree_in};
use ledger_terms::{Hash, ParticipantId, PathList, Topology};
use std::alloc::{AllocError, Global};

/// What a participant reads of a request of which it is a recipient: the hash of the mediator's tree, the paths of the views that it
/// sees and of those that it confirms, and what its envelope offers it.
#[derive(Drop)]
pub struct Notice {
    pub root: Hash,
    pub seen: PathList,
    pub confirmed: PathList,
    pub offered: OpenedFor,
}

/// What an envelope offers, which counts as Missing too where it opens an action that names a party outside the topology.
pub fn if_known(
    alloc: Global,
    topology: &Topology,
    offered: OpenedFor,
) -> Result<OpenedFor, AllocError>
    ensures { IfOk result (λ offer. offer ≡ if_known topology.now offered) }
{
    match offered {
        OpenedFor::Mismatch => Ok(OpenedFor::Mismatch),
        OpenedFor::Missing => Ok(OpenedFor::Missing),
        OpenedFor::Open(tree) => {
            if names_known(alloc, topology, &tree)? {
                Ok(OpenedFor::Open(tree))
            } else {
                Ok(OpenedFor::Missing)
            }
        }
    }
}

// What the envelope to a participant offers it, for the request's root and the views that it sees.
fn offered(
    alloc: Global,
    topology: &Topology,
    me: ParticipantId,
    request: &Request,
    root: &Hash,
    seen: &PathList,
) -> Result<OpenedFor, AllocError>
    requires root { root.now ≡ root_of request.now }
    requires seen { seen.now ≡ paths_seen topology.now me request.now }
    ensures { IfOk result (λ offer. offer ≡ offered topology.now me request.now) }
{
    let Some(envelope) = envelope_of(request, me) else {
        return Ok(OpenedFor::Missing);
    };
    let offered = opened_of(alloc, request, envelope.as_slice(), root, seen)?;
    if_known(alloc, topology, offered)
}

// What an envelope's bytes open. What they show as the mediator's tree does isn't hashed.
fn opened_of(
    alloc: Global,
    request: &Request,
    bytes: &[u8],
    root: &Hash,
    seen: &PathList,
) -> Result<OpenedFor, AllocError>
    requires { root.now ≡ root_of request.now }
    ensures { IfOk result (λ opened. opened ≡ opened_for_root root.now seen.now (list_any is_root_path seen.now) bytes.now) }
{
    match tree_in(alloc, request.mediator.as_slice())? {
        Some(told) => opened_beside(alloc, bytes, root, &told, seen, has_root(seen)),
        None => opened_for(alloc, bytes, root, seen, has_root(seen)),
    }
}

fn is_some_path(paths: &PathList) -> bool
    ensures { result ≡ is_some_path paths.now }
{
    !paths.is_empty()
}

// Whether a request is to a participant: it is the sender, or it sees a view.
fn is_recipient(me: ParticipantId, request: &Request, seen: &PathList) -> bool
    ensures { result ≡ (nat_eq me request.now.sender || is_some_path seen.now) }
{
    me == request.sender || is_some_path(seen)
}

/// What participant `me` reads of a request, where `outline` is what the mediator's bytes tell. None exactly where it is no recipient of the request.
pub fn read_notice(
    alloc: Global,
    topology: &Topology,
    me: ParticipantId,
    request: &Request,
    outline: &Outline,
) -> Result<Option<Notice>, AllocError>
    requires { IsOutline request.now outline.now }
    ensures none { IfOk result (λ o. IfNone o ((packages : Packages) → is_recipient (framed_reading topology.now packages) me request.now ≡ false)) }
    ensures some { IfOk result (λ o. IfSome o (λ notice.
        (packages : Packages) → is_recipient (framed_reading topology.now packages) me request.now ≡ true)) }
    ensures notice { IfOk result (λ o. IfSome o (λ notice.
        (packages : Packages) → IsNotice topology.now (framed_reading topology.now packages) me request.now notice)) }
{
    let seen = seen_among(alloc, topology, me, &outline.views)?;
    if is_recipient(me, request, &seen) {
        let confirmed = confirmed_among(alloc, topology, me, &outline.views)?;
        let offered = offered(alloc, topology, me, request, &outline.root, &seen)?;
        return Ok(Some(Notice {
            root: outline.root,
            seen,
            confirmed,
            offered,
        }));
    }
    Ok(None)
}

//! What comes again of a request, by what a state has of it.
ghost use Rattle.std.specs.Prelude.{◌≡◌, IfOk};
ghost use Rattle.node_inbox.specs.Coming.{IsComing};
ghost use Rattle.node_inbox.specs.Offers.{as_offered};
ghost use Rattle.node_inbox.specs.Raw.{IsOfRequest, offer_by, raw_what};
ghost use Rattle.node_inbox.specs.declared.kept_item.KeptContent.TheVariants as Content;
ghost use Rattle.node_state.specs.declared.item_what.ItemWhat.TheVariants as Raw;

use crate::boxed_request::BoxedRequest;
use crate::change_lists::ids_of;
use crate::coming::{ComingRequest, parts_of};
use crate::kept_item::KeptRequest;
use crate::kept_offer::KeptOffer;
use blind_tree::{OpenedFor, opened_for};
use canton_model::SharedBytes;
use confirm_reply::Setup;
use ledger_terms::{Hash, Name, ParticipantId, PathList, Topology};
use proto_model::{has_root, if_known};
use std::alloc::{AllocError, Global};

/// A request, as one of its recipients has it apart from its inbox.
#[derive(Drop)]
pub struct RawRequest {
    pub sender: ParticipantId,
    pub command: Name,
    pub root: Hash,
    pub seen: PathList,
    pub confirmed: PathList,
    pub envelope: Option<SharedBytes>,
}

// What an envelope offers who sees these views of a request with this root.
fn offer_by(
    alloc: Global,
    topology: &Topology,
    root: &Hash,
    seen: &PathList,
    envelope: &Option<SharedBytes>,
) -> Result<OpenedFor, AllocError>
    ensures { IfOk result (λ offer. offer ≡ offer_by topology.now root.now seen.now envelope.now) }
{
    match envelope {
        None => Ok(OpenedFor::Missing),
        Some(bytes) => {
            let opened = opened_for(alloc, bytes.as_slice(), root, seen, has_root(seen))?;
            if_known(alloc, topology, opened)
        }
    }
}

/// What the inbox of participant `me` will keep of a request, by what a state had of it, which has to be that of a framed request with `me` among its
/// recipients (`IsOfRequest`). The envelope is read once more, the changes are worked out of what it offers, and the facts are still blank; beside it
/// are the ids of the contracts that it will hold. Err is want of memory; `me` is there for the contract alone.
pub fn coming_again(
    alloc: Global,
    setup: &Setup,
    me: ParticipantId,
    raw: RawRequest,
) -> Result<ComingRequest, AllocError>
    requires { IsOfRequest setup.now.topology setup.now.checked me raw.sender raw.command raw.root raw.seen raw.confirmed raw.envelope }
    ensures coming { IfOk result (λ coming. IsComing setup.now.topology setup.now.checked me coming) }
    ensures raw { IfOk result (λ coming. raw_what (Content.Received coming.kept)
        ≡ Raw.Request raw.sender raw.command raw.root raw.seen raw.confirmed raw.envelope) }
    ensures offer { IfOk result (λ coming. as_offered coming.kept.offer
        ≡ offer_by setup.now.topology coming.kept.root coming.kept.seen coming.kept.envelope) }
{
    let offered = offer_by(alloc, &setup.topology, &raw.root, &raw.seen, &raw.envelope)?;
    let offer = KeptOffer::of(alloc, offered)?;
    let (facts, changes) = parts_of(alloc, &offer)?;
    let ids = ids_of(alloc, changes.as_slice())?;
    let RawRequest {
        sender,
        command,
        root,
        seen,
        confirmed,
        envelope,
    } = raw;
    let kept = BoxedRequest::new(
        alloc,
        KeptRequest {
            sender,
            command,
            root,
            seen,
            confirmed,
            envelope,
            offer,
            changes,
            facts,
        },
    )?;
    Ok(ComingRequest { kept, ids })
}

//! What a request offers a participant.
ghost use Rattle.framed_form.specs.Outlines.{IsOutline};

use crate::lack::Lack;
use crate::withheld::Withheld;
use blind_tree::{OpenedFor, OpenedTree};
use canton_model::Request;
use ledger_terms::{ParticipantId, Topology};
use proto_model::{Notice, Outline, envelope_of, read_notice};
use std::alloc::{AllocError, Global};

/// What a request offers a participant. Nothing: it is no recipient, or is one only as the sender and has no complete envelope. Open: what its
/// complete envelope opens. Withheld: it is to see views and has no complete envelope.
#[derive(Drop)]
pub(crate) enum Offer {
    Nothing,
    Open(OpenedTree),
    Withheld(Withheld),
}

/// What the request offers the participant `me`. The outline is the views that the mediator is told of, with their informees and confirmers.
pub(crate) fn offer_of(
    alloc: Global,
    topology: &Topology,
    request: &Request,
    outline: &Outline,
    me: ParticipantId,
) -> Result<Offer, AllocError>
    requires { IsOutline request.now outline.now }
{
    let Some(notice) = read_notice(alloc, topology, me, request, outline)? else {
        return Ok(Offer::Nothing);
    };
    let Notice { seen, offered, .. } = notice;
    let lack = match offered {
        OpenedFor::Open(part) => return Ok(Offer::Open(part)),
        OpenedFor::Mismatch => Lack::OtherTree,
        OpenedFor::Missing => match envelope_of(request, me) {
            Some(_) => Lack::Incomplete,
            None => Lack::NoEnvelope,
        },
    };
    if seen.is_empty() {
        return Ok(Offer::Nothing);
    }
    Ok(Offer::Withheld(Withheld {
        participant: me,
        seen,
        lack,
    }))
}

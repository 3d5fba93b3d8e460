//! What one participant is shown of one request.
use crate::disclosed_request::DisclosedRequest;
use crate::disclosure::Disclosure;
use crate::piece::PieceList;
use crate::request::put_disclosed;
use crate::sheet::Sheet;
use crate::span::Span;
use crate::steps::steps_of;
use canton_model::Request;
use ledger_terms::{ParticipantId, Path, Text, Topology};
use std::alloc::{AllocError, Global};

/// How wide what is shown is, in units.
const WIDTH: u32 = 800;

/// What a page shows participant `me` of a request: lines of text, and chips, which are small signs that name who sees a view and what they do with it.
/// They are those of a picture for `me`, without its boxes and the line that names the request, from the left edge on. Where nothing is disclosed to
/// `me`, one line says so; `place` has no effect.
pub fn shown_pieces(
    alloc: Global,
    topology: &Topology,
    place: u64,
    request: &Request,
    me: ParticipantId,
) -> Result<PieceList, AllocError> {
    let disclosure = Disclosure::to(alloc, topology, request, me)?;
    let disclosed = DisclosedRequest {
        place,
        request,
        disclosure,
    };
    let span = Span {
        left: 0,
        right: WIDTH,
    };
    let mut sheet = Sheet::new(alloc);
    put_disclosed(&mut sheet, topology, span, &disclosed, Some(&me))?;
    Ok(sheet.pieces)
}

/// The text of the action with this number, in pre-order and counted from 0, in the core of the view at a path, as `me` is shown it. None where that
/// view isn't opened to it, and where the core has no such action.
pub fn shown_action(
    alloc: Global,
    topology: &Topology,
    request: &Request,
    me: ParticipantId,
    path: &Path,
    number: u16,
) -> Result<Option<Text>, AllocError> {
    let Some(disclosure) = Disclosure::to(alloc, topology, request, me)? else {
        return Ok(None);
    };
    let Some(view) = disclosure.view_within(path) else {
        return Ok(None);
    };
    let mut left = number;
    for step in steps_of(alloc, &view.root)?.as_slice() {
        if let Some(action) = &step.action {
            if left == 0 {
                return Ok(Some(action.clone()?));
            }
            left = left.saturating_sub(1);
        }
    }
    Ok(None)
}

//! One request of a log.
use crate::audience::Audience;
use crate::disclosed_request::DisclosedRequest;
use crate::line::LineKind;
use crate::sheet::Sheet;
use crate::span::Span;
use crate::spot::Spot;
use crate::told::told_text;
use crate::vertices::put_vertices;
use crate::withheld::Withheld;
use canton_model::Request;
use ledger_terms::{ParticipantId, Text, Topology};
use proto_model::envelope_of;
use report_text::{put_host, put_number};
use std::alloc::{AllocError, Global};

/// Units above a request.
const ABOVE: u32 = 18;

/// Puts the line that says which request it is, and below it what is disclosed: to `reader`, or, where that is None, by all messages together.
pub(crate) fn put_request(
    sheet: &mut Sheet,
    topology: &Topology,
    span: Span,
    disclosed: &DisclosedRequest<'_>,
    reader: Option<&ParticipantId>,
) -> Result<(), AllocError> {
    let alloc = sheet.alloc;
    sheet.skip(ABOVE);
    let text = request_text(alloc, topology, disclosed.place, disclosed.request)?;
    sheet.put_line(LineKind::Request, span, text)?;
    put_disclosed(sheet, topology, span, disclosed, reader)
}

/// Puts what is disclosed of a request: to `reader`, or, where that is None, by all messages together.
pub(crate) fn put_disclosed(
    sheet: &mut Sheet,
    topology: &Topology,
    span: Span,
    disclosed: &DisclosedRequest<'_>,
    reader: Option<&ParticipantId>,
) -> Result<(), AllocError> {
    let alloc = sheet.alloc;
    let Some(disclosure) = &disclosed.disclosure else {
        let words = words_without(disclosed.request, reader);
        return sheet.put_line(LineKind::Detail, span, Text::of(alloc, words)?);
    };
    if disclosure.names_sender() {
        let text = told_text(alloc, disclosure)?;
        sheet.put_line(LineKind::Detail, span, text)?;
    }
    for withheld in disclosure.withheld.as_slice() {
        let text = withheld_text(alloc, topology, withheld)?;
        sheet.put_line(LineKind::Withheld, span, text)?;
    }
    let audience = Audience {
        topology,
        withheld: &disclosure.withheld,
    };
    let spot = Spot::root(alloc, span);
    put_vertices(sheet, &audience, disclosure, &spot, &disclosure.tree.views)
}

/// The line that says which request it is: its place, the sender's name and the command.
fn request_text(
    alloc: Global,
    topology: &Topology,
    place: u64,
    request: &Request,
) -> Result<Text, AllocError> {
    let mut out = String::from_str(alloc, "request at place ")?;
    put_number(&mut out, place)?;
    out.push_str(": ")?;
    put_host(&mut out, &topology.hosts, request.sender)?;
    out.push_str(" ")?;
    out.push_str(request.command.as_str())?;
    Ok(Text::of_string(out))
}

/// The line that says from whom views are withheld, and what that participant has in place of a complete envelope.
fn withheld_text(
    alloc: Global,
    topology: &Topology,
    withheld: &Withheld,
) -> Result<Text, AllocError> {
    let mut out = String::from_str(alloc, "withheld from ")?;
    put_host(&mut out, &topology.hosts, withheld.participant)?;
    out.push_str(": ")?;
    out.push_str(withheld.lack.words())?;
    Ok(Text::of_string(out))
}

/// What is said of a request that discloses nothing. Anybody may have sent an envelope to who is to see no view.
fn words_without(request: &Request, reader: Option<&ParticipantId>) -> &'static str {
    match reader {
        Some(me) if envelope_of(request, *me).is_some() => "an envelope that opens nothing",
        _ => "no envelope",
    }
}

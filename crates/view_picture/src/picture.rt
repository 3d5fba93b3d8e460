//! Pictures of logs.
use crate::disclosed_request::disclosed_requests;
use crate::line::LineKind;
use crate::piece::PieceList;
use crate::request::put_request;
use crate::sheet::Sheet;
use crate::span::Span;
use crate::view_box::ViewBoxList;
use canton_model::EntryList;
use ledger_terms::{ParticipantId, Text, Topology};
use report_text::{put_host, put_number};
use std::alloc::{AllocError, Global};
use svg_text::Size;

/// Of how many entries the requests are drawn.
pub const MOST_ENTRIES: usize = 500;

/// How wide a picture is, and how much of that is left free at each edge, in units.
const WIDTH: u32 = 960;

const MARGIN: u32 = 24;

/// The requests of a log with their views, as boxes, lines and chips. A line keeps its whole text, even where that has no room.
#[derive(Drop)]
pub struct Picture {
    pub title: Text,
    pub size: Size,
    pub boxes: ViewBoxList,
    pub pieces: PieceList,
}

/// The picture of the requests among the log's first 500 entries. It shows all that the messages of each disclose, or, where `reader` is a
/// participant, what they disclose to that one. Where the log is longer, a line at the end says so.
pub fn picture_of(
    alloc: Global,
    topology: &Topology,
    log: &EntryList,
    reader: Option<&ParticipantId>,
) -> Result<Picture, AllocError> {
    let span = Span {
        left: MARGIN,
        right: WIDTH - MARGIN,
    };
    let mut sheet = Sheet::new(alloc);
    sheet.skip(MARGIN);
    let title = title_of(alloc, topology, reader)?;
    sheet.put_line(LineKind::Title, span, title.clone()?)?;
    let requests = disclosed_requests(alloc, topology, log, MOST_ENTRIES, reader)?;
    put_key(&mut sheet, span, topology, reader.is_some())?;
    if requests
        .as_slice()
        .iter()
        .any(|request| request.has_withheld())
    {
        put_withheld_key(&mut sheet, span)?;
    }
    for request in requests.as_slice() {
        put_request(&mut sheet, topology, span, request, reader)?;
    }
    if log.len() > MOST_ENTRIES {
        put_end(&mut sheet, span)?;
    }
    sheet.skip(MARGIN);
    Ok(picture_with(title, sheet))
}

/// The picture of what was put onto a sheet.
fn picture_with(title: Text, sheet: Sheet) -> Picture {
    let Sheet {
        bottom,
        boxes,
        pieces,
        ..
    } = sheet;
    let size = Size {
        width: WIDTH,
        height: bottom,
    };
    Picture {
        title,
        size,
        boxes,
        pieces,
    }
}

/// The title: of all that is disclosed, or of what is shown to the reader.
fn title_of(
    alloc: Global,
    topology: &Topology,
    reader: Option<&ParticipantId>,
) -> Result<Text, AllocError> {
    let Some(me) = reader else {
        return Text::of(alloc, "Transactions with their views");
    };
    let mut out = String::from_str(alloc, "Transactions as ")?;
    put_host(&mut out, &topology.hosts, *me)?;
    out.push_str(" is shown them")?;
    Ok(Text::of_string(out))
}

/// Puts what boxes and chips mean. `has_blind` tells whether hashes may stand in the place of what isn't shown.
fn put_key(
    sheet: &mut Sheet,
    span: Span,
    topology: &Topology,
    has_blind: bool,
) -> Result<(), AllocError> {
    sheet.skip(6);
    let alloc = sheet.alloc;
    let boxes = Text::of(
        alloc,
        "A box is a view. Each participant that sees it has a chip, which is filled where it confirms the view.",
    )?;
    sheet.put_line(LineKind::Detail, span, boxes)?;
    if has_observers(topology) {
        let observers = Text::of(
            alloc,
            "A chip of dashes is that of a participant which only observes the parties that are told of the view.",
        )?;
        sheet.put_line(LineKind::Detail, span, observers)?;
    }
    if has_blind {
        let blind = Text::of(
            alloc,
            "What isn't shown has a box of dashes with its hash, cut to eight digits.",
        )?;
        sheet.put_line(LineKind::Detail, span, blind)?;
    }
    Ok(())
}

/// Puts what the look of withheld views means.
fn put_withheld_key(sheet: &mut Sheet, span: Span) -> Result<(), AllocError> {
    let text = Text::of(
        sheet.alloc,
        "What is withheld is red: the participant is to see the view, by what the mediator is told, and has no complete envelope.",
    )?;
    sheet.put_line(LineKind::Detail, span, text)
}

/// Whether a participant hosts a party only to observe.
fn has_observers(topology: &Topology) -> bool {
    topology
        .hosts
        .as_slice()
        .iter()
        .any(|host| !host.observing.is_empty())
}

/// Puts that the log goes on behind the entries that were drawn.
fn put_end(sheet: &mut Sheet, span: Span) -> Result<(), AllocError> {
    sheet.skip(12);
    let mut out = String::from_str(
        sheet.alloc,
        "The log goes on. Drawn are the requests of its first ",
    )?;
    put_number(&mut out, MOST_ENTRIES as u64)?;
    out.push_str(" entries.")?;
    sheet.put_line(LineKind::Detail, span, Text::of_string(out))
}

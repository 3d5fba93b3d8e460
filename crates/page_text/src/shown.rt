//! What a participant is shown of a request.
use crate::html::Html;
use crate::story::Story;
use crate::teller::Teller;
use canton_model::Request;
use std::alloc::AllocError;
use view_picture::{Chip, Line, LineKind, Part, Piece, shown_pieces};

/// Entries of a log of which all is unfolded from the beginning.
const MOST_UNFOLDED: u64 = 24;

/// Units of a picture's indent that are one step on the page, and how many steps there are.
const STEP: u32 = 10;

const MOST_STEPS: u32 = 12;

/// The class of the style sheet for a line of this kind.
fn class_of(kind: LineKind) -> &'static str {
    match kind {
        LineKind::Title | LineKind::Request | LineKind::Detail => "detail",
        LineKind::View => "view",
        LineKind::Action => "action",
        LineKind::Blinded => "blind",
        LineKind::Withheld => "withheld",
    }
}

/// Puts a line. Its indent, which has units in a picture, becomes one of the page's steps.
fn put_line(html: &mut Html, line: &Line) -> Result<(), AllocError> {
    let steps = (line.at.x / STEP).min(MOST_STEPS);
    html.markup("<div class=\"")?;
    html.markup(class_of(line.kind))?;
    html.markup(" i")?;
    html.number(steps as u64)?;
    html.markup("\">")?;
    html.text(line.text.as_str())?;
    html.markup("</div>")
}

fn put_chip(html: &mut Html, chip: &Chip) -> Result<(), AllocError> {
    html.markup("<span class=\"chip\">")?;
    html.text(chip.name.as_str())?;
    html.markup(if chip.is_withheld {
        ": withheld"
    } else {
        match chip.part {
            Part::Confirms => " confirms",
            Part::Sees => " sees",
            Part::Observes => " observes",
        }
    })?;
    html.markup("</span> ")
}

/// How many actions and hashes there are among pieces, and whether something is withheld.
#[derive(Clone, Copy)]
struct Amounts {
    actions: u64,
    hashes: u64,
    is_withheld: bool,
}

fn amounts_of(pieces: &[Piece]) -> Amounts {
    let mut amounts = Amounts {
        actions: 0,
        hashes: 0,
        is_withheld: false,
    };
    for piece in pieces {
        if let Piece::Line(line) = piece {
            match line.kind {
                LineKind::Action => amounts.actions = amounts.actions.saturating_add(1),
                LineKind::Blinded => amounts.hashes = amounts.hashes.saturating_add(1),
                LineKind::Withheld => amounts.is_withheld = true,
                _ => {}
            }
        }
    }
    amounts
}

/// Puts the line that is seen where the rest is folded.
fn put_summary(html: &mut Html, amounts: Amounts) -> Result<(), AllocError> {
    html.markup("<summary>")?;
    if amounts.is_withheld {
        html.markup("withheld: ")?;
    }
    html.markup("actions opened: ")?;
    html.number(amounts.actions)?;
    html.markup("; hashes in the place of others: ")?;
    html.number(amounts.hashes)?;
    html.markup("</summary>")
}

/// Puts what the request at a place discloses to the participant: the views that are opened to it, hashes in the place of all else, and what is
/// withheld.
pub(crate) fn put_shown(
    html: &mut Html,
    story: &Story<'_>,
    teller: &Teller,
    place: u64,
    request: &Request,
) -> Result<(), AllocError> {
    let pieces = shown_pieces(
        story.alloc,
        &story.setup.topology,
        place,
        request,
        teller.me,
    )?;
    html.markup(if story.last() <= MOST_UNFOLDED {
        "<details open=\"\">"
    } else {
        "<details>"
    })?;
    put_summary(html, amounts_of(pieces.as_slice()))?;
    for piece in pieces.as_slice() {
        match piece {
            Piece::Line(line) => put_line(html, line)?,
            Piece::Chip(chip) => put_chip(html, chip)?,
        }
    }
    html.markup("</details>")
}

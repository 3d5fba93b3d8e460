//! For whom the mediator waits.
use crate::html::Html;
use crate::stay::Stay;
use crate::story::Story;
use crate::words::{put_name, put_names};
use canton_model::Request;
use ledger_terms::ParticipantIdList;
use page_data::{OpenRequest, OpenRequestList};
use std::alloc::AllocError;

/// The open request at this place of the log among those of a list. None: it isn't open there.
fn open_at(list: &OpenRequestList, request: u64) -> Option<&OpenRequest> {
    for open in list.as_slice() {
        if open.place == request {
            return Some(open);
        }
    }
    None
}

fn put_missing(
    html: &mut Html,
    story: &Story<'_>,
    missing: &ParticipantIdList,
) -> Result<(), AllocError> {
    if missing.is_empty() {
        html.markup("nobody: its verdict is to come")
    } else {
        put_names(html, story, missing)
    }
}

fn put_row(
    html: &mut Html,
    story: &Story<'_>,
    stay: Stay,
    request: &Request,
    open: &OpenRequest,
) -> Result<(), AllocError> {
    html.begin_at("tr", stay, story.last())?;
    html.markup("<th scope=\"row\">place ")?;
    html.number(open.place)?;
    html.markup(", from ")?;
    put_name(html, story, request.sender)?;
    html.markup("</th><td>")?;
    html.number(open.deadline)?;
    html.markup("</td><td>")?;
    put_missing(html, story, &open.missing)?;
    html.markup("</td></tr>\n")
}

/// Whether the mediator waits for the same participants.
fn is_same(one: &OpenRequest, other: &OpenRequest) -> bool {
    one.missing.as_slice() == other.missing.as_slice()
}

/// Puts a request's rows of the table: one for each stretch of places over which the mediator waits for the same participants.
fn put_rows(
    html: &mut Html,
    story: &Story<'_>,
    place: u64,
    request: &Request,
) -> Result<(), AllocError> {
    let mut now: Option<&OpenRequest> = None;
    let mut from = 0;
    let mut to = 0;
    for (at, list) in story.waiting.as_slice().iter().enumerate() {
        let next = open_at(list, place);
        let stays = match (now, next) {
            (Some(one), Some(other)) => is_same(one, other),
            (None, None) => true,
            _ => false,
        };
        if !stays {
            if let Some(open) = now {
                put_row(html, story, Stay { from, to }, request, open)?;
            }
            now = next;
            from = at as u64;
        }
        to = at as u64;
    }
    match now {
        Some(open) => put_row(html, story, Stay { from, to }, request, open),
        None => Ok(()),
    }
}

/// Puts the part of the page that says of each request without a verdict for whom the mediator waits.
pub(crate) fn put_mediation(html: &mut Html, story: &Story<'_>) -> Result<(), AllocError> {
    html.markup(
        "<section class=\"who\" aria-labelledby=\"mediator\"><h3 id=\"mediator\">Mediator</h3>\n<h4>Requests without a verdict</h4>\n",
    )?;
    html.markup(
        "<table><thead><tr><th scope=\"col\">Request</th><th scope=\"col\">Deadline</th><th scope=\"col\">Waits for</th></tr></thead>\n<tbody>",
    )?;
    for place in 0..story.last() {
        if let Some(request) = story.request(place) {
            put_rows(html, story, place, request)?;
        }
    }
    html.markup("</tbody></table>\n</section>\n")
}

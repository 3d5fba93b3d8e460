//! What stands at each place of the log.
use crate::html::Html;
use crate::stay::Stay;
use crate::story::Story;
use crate::words::{put_decision, put_name, put_verdicts};
use canton_model::{Entry, Message, Request};
use std::alloc::AllocError;

/// Puts who sent a request, and its command. A page for one participant has the command only where that is the sender.
pub(crate) fn put_request_words(
    html: &mut Html,
    story: &Story<'_>,
    request: &Request,
) -> Result<(), AllocError> {
    html.markup("request of ")?;
    put_name(html, story, request.sender)?;
    if story.tells_of(request.sender) {
        html.markup(", command ")?;
        html.text(request.command.as_str())?;
    }
    Ok(())
}

/// Puts what an entry says, as far as the page tells it.
pub(crate) fn put_entry_words(
    html: &mut Html,
    story: &Story<'_>,
    place: u64,
    entry: &Entry,
) -> Result<(), AllocError> {
    match &entry.message {
        Message::Request(request) if story.is_told(place) => {
            put_request_words(html, story, request)
        }
        Message::Response(response) if story.tells_of(response.from) => {
            html.markup("response of ")?;
            put_name(html, story, response.from)?;
            html.markup(" to the request at place ")?;
            html.number(response.request)?;
            html.markup(": ")?;
            put_verdicts(html, &response.verdicts)
        }
        Message::Verdict(verdict) if story.is_told(verdict.request) => {
            html.markup("verdict on the request at place ")?;
            html.number(verdict.request)?;
            html.markup(": ")?;
            put_decision(html, story, &verdict.decision)
        }
        Message::Tick if story.reader.is_none() => html.markup("a Tick, which moves the time"),
        _ => html.markup("an entry of which nothing is told but its time"),
    }
}

/// Puts the line of the place behind an entry.
fn put_place(
    html: &mut Html,
    story: &Story<'_>,
    place: u64,
    entry: &Entry,
) -> Result<(), AllocError> {
    let behind = place.saturating_add(1);
    let stay = Stay {
        from: behind,
        to: behind,
    };
    html.begin_at("p", stay, story.last())?;
    html.markup("<b>Place ")?;
    html.number(behind)?;
    html.markup("</b>, time ")?;
    html.number(entry.time)?;
    html.markup(", behind the entry at place ")?;
    html.number(place)?;
    html.markup(": ")?;
    put_entry_words(html, story, place, entry)?;
    html.markup(".</p>\n")
}

/// Puts a line for each place of the page. One of them is seen at a time.
pub(crate) fn put_places(html: &mut Html, story: &Story<'_>) -> Result<(), AllocError> {
    let first = Stay { from: 0, to: 0 };
    html.markup("<div id=\"said\" aria-live=\"polite\">")?;
    html.begin_at("p", first, story.last())?;
    html.markup("<b>Place 0</b>: nothing was read.</p>\n")?;
    for (place, entry) in story.log.iter().enumerate() {
        put_place(html, story, place as u64, entry)?;
    }
    html.markup("</div>\n")
}

//! The requests that a participant received.
use crate::html::Html;
use crate::shown::put_shown;
use crate::stay::Stay;
use crate::story::Story;
use crate::teller::{Teller, request_in};
use crate::verdicts::put_duty;
use crate::words::{outcome_class, outcome_words, put_name};
use canton_model::{Outcome, Request};
use std::alloc::AllocError;

fn put_outcome(
    html: &mut Html,
    story: &Story<'_>,
    stay: Stay,
    outcome: Outcome,
) -> Result<(), AllocError> {
    html.begin_at("span", stay, story.last())?;
    html.markup("<span class=\"")?;
    html.markup(outcome_class(outcome))?;
    html.markup("\">")?;
    html.markup(outcome_words(outcome))?;
    html.markup("</span></span>")
}

/// Puts what became of the request, as the participant knows it: a text for each stretch of places over which that stays the same.
fn put_outcomes(
    html: &mut Html,
    story: &Story<'_>,
    teller: &Teller,
    request: u64,
) -> Result<(), AllocError> {
    let mut now: Option<Outcome> = None;
    let mut from = 0;
    for (place, knowledge) in teller.course.states.as_slice().iter().enumerate() {
        let Some(state) = request_in(knowledge, request) else {
            continue;
        };
        let place = place as u64;
        if now != Some(state.outcome) {
            if let Some(outcome) = now {
                let to = place.saturating_sub(1);
                put_outcome(html, story, Stay { from, to }, outcome)?;
            }
            now = Some(state.outcome);
            from = place;
        }
    }
    match now {
        Some(outcome) => {
            let to = story.last();
            put_outcome(html, story, Stay { from, to }, outcome)
        }
        None => Ok(()),
    }
}

/// Puts the row of a request, which is seen from the place behind it on.
fn put_request(
    html: &mut Html,
    story: &Story<'_>,
    teller: &Teller,
    place: u64,
    request: &Request,
) -> Result<(), AllocError> {
    let stay = Stay {
        from: place.saturating_add(1),
        to: story.last(),
    };
    html.begin_at("tr", stay, story.last())?;
    html.markup("<th scope=\"row\">place ")?;
    html.number(place)?;
    html.markup(", from ")?;
    put_name(html, story, request.sender)?;
    html.markup("</th><td>")?;
    put_shown(html, story, teller, place, request)?;
    html.markup("</td><td>")?;
    put_outcomes(html, story, teller, place)?;
    html.markup("</td><td>")?;
    put_duty(html, story, teller, place)?;
    html.markup("</td></tr>\n")
}

/// Puts the table of the requests that the participant received, with what it owes and what became of each at each place.
pub(crate) fn put_requests(
    html: &mut Html,
    story: &Story<'_>,
    teller: &Teller,
) -> Result<(), AllocError> {
    html.markup(
        "<h4>Requests</h4>\n<table class=\"asked\"><thead><tr><th scope=\"col\">Request</th><th scope=\"col\">What it is shown</th>",
    )?;
    html.markup(
        "<th scope=\"col\">Became</th><th scope=\"col\">Its verdicts</th></tr></thead>\n<tbody>",
    )?;
    for place in 0..story.last() {
        if let Some(request) = story.request(place) {
            if teller.received(place) {
                put_request(html, story, teller, place, request)?;
            }
        }
    }
    html.markup("</tbody></table>\n")
}

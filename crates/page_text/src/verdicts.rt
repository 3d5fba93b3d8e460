//! What a participant owes and has answered.
use crate::html::Html;
use crate::stay::Stay;
use crate::story::Story;
use crate::teller::{Teller, request_in};
use crate::words::put_verdicts;
use canton_model::{Message, Outcome, Response};
use ledger_terms::ParticipantId;
use std::alloc::AllocError;

/// A participant's response to the request at the place `request`, with the response's own place. None: the page's entries have none.
pub(crate) fn response_of<'l>(
    story: &Story<'l>,
    from: ParticipantId,
    request: u64,
) -> Option<(u64, &'l Response)> {
    for (place, entry) in story.log.iter().enumerate() {
        if let Message::Response(response) = &entry.message {
            if response.from == from && response.request == request {
                return Some((place as u64, response));
            }
        }
    }
    None
}

/// The first place at which the participant knows that the request is decided. None: it doesn't know it on the page's entries.
fn decided_from(teller: &Teller, request: u64) -> Option<u64> {
    for (place, knowledge) in teller.course.states.as_slice().iter().enumerate() {
        if let Some(state) = request_in(knowledge, request) {
            if state.outcome != Outcome::Undecided {
                return Some(place as u64);
            }
        }
    }
    None
}

/// The last place at which the participant owes verdicts: that of its response, or the one before it knows the request to be decided, whichever is
/// less; else the page's last.
fn owes_to(story: &Story<'_>, answered: Option<u64>, decided: Option<u64>) -> u64 {
    let answered = match answered {
        Some(place) => place,
        None => story.last(),
    };
    match decided {
        Some(place) => answered.min(place.saturating_sub(1)),
        None => answered,
    }
}

/// Puts the verdicts that the participant owes to the request, seen at the places of `stay`.
fn put_owed(
    html: &mut Html,
    story: &Story<'_>,
    teller: &Teller,
    request: u64,
    stay: Stay,
) -> Result<(), AllocError> {
    for owed in teller.course.owed.as_slice() {
        if owed.place == request {
            html.begin_at("span", stay, story.last())?;
            html.markup("<b>owes</b> ")?;
            put_verdicts(html, &owed.verdicts)?;
            html.markup("</span>")?;
        }
    }
    Ok(())
}

/// Puts the response, seen from the place behind it on.
fn put_answered(
    html: &mut Html,
    story: &Story<'_>,
    place: u64,
    response: &Response,
) -> Result<(), AllocError> {
    let stay = Stay {
        from: place.saturating_add(1),
        to: story.last(),
    };
    html.begin_at("span", stay, story.last())?;
    html.markup("answered at place ")?;
    html.number(place)?;
    html.markup(": ")?;
    put_verdicts(html, &response.verdicts)?;
    html.markup("</span>")
}

/// Says from the place `from` on that the request was decided before the participant answered.
fn put_late(html: &mut Html, story: &Story<'_>, from: u64) -> Result<(), AllocError> {
    let stay = Stay {
        from,
        to: story.last(),
    };
    html.begin_at("span", stay, story.last())?;
    html.markup("not answered before it was decided</span>")
}

/// Puts what the participant owes to the request and what it answered, each seen at the places at which that is so.
pub(crate) fn put_duty(
    html: &mut Html,
    story: &Story<'_>,
    teller: &Teller,
    request: u64,
) -> Result<(), AllocError> {
    let is_asked = teller
        .course
        .owed
        .as_slice()
        .iter()
        .any(|owed| owed.place == request);
    let answer = response_of(story, teller.me, request);
    if !is_asked {
        return html.markup("owes nothing");
    }
    let decided = decided_from(teller, request);
    let answered = match answer {
        Some((place, _)) => Some(place),
        None => None,
    };
    let stay = Stay {
        from: request.saturating_add(1),
        to: owes_to(story, answered, decided),
    };
    put_owed(html, story, teller, request, stay)?;
    match (answer, decided) {
        (Some((place, response)), _) => put_answered(html, story, place, response),
        (None, Some(from)) => put_late(html, story, from),
        (None, None) => Ok(()),
    }
}

//! Requests that weren't approved.
use crate::html::Html;
use crate::rules::{CHECKS, EXPIRED, LOG, TIMED_OUT, rule_of};
use crate::stay::Stay;
use crate::story::Story;
use crate::teller::request_in;
use crate::verdicts::response_of;
use crate::words::{put_decision, put_name};
use canton_model::{Decision, LocalVerdict, Message, Outcome, Reason, Request, Response};
use ledger_terms::{ParticipantId, Path};
use std::alloc::AllocError;
use view_picture::shown_action;

/// The number of the action by which a response rejects a view. None: it doesn't reject the view.
fn action_in(response: &Response, view: &Path) -> Option<u16> {
    for said in response.verdicts.as_slice() {
        if let LocalVerdict::Reject { action, .. } = &said.verdict {
            if said.view == *view {
                return Some(*action);
            }
        }
    }
    None
}

/// Puts the action that shows why `from` rejects a view of the request at a place, as that participant is shown it; nothing where there is no
/// response.
fn put_action(
    html: &mut Html,
    story: &Story<'_>,
    place: u64,
    from: ParticipantId,
    view: &Path,
) -> Result<(), AllocError> {
    let Some((_, response)) = response_of(story, from, place) else {
        return Ok(());
    };
    let Some(number) = action_in(response, view) else {
        return Ok(());
    };
    html.markup("action ")?;
    html.number(number as u64)?;
    html.markup(" of view ")?;
    html.path(view)?;
    let Some(request) = story.request(place) else {
        return Ok(());
    };
    let topology = &story.setup.topology;
    if let Some(action) = shown_action(story.alloc, topology, request, from, view, number)? {
        html.markup(": <code>")?;
        html.text(action.as_str())?;
        html.markup("</code>")?;
    }
    Ok(())
}

fn put_rule(html: &mut Html, reason: Reason) -> Result<(), AllocError> {
    html.markup("<b>")?;
    html.text(reason.name())?;
    html.markup("</b> holds where ")?;
    html.text(rule_of(reason))?;
    html.markup(":")?;
    html.markup(CHECKS)
}

/// Puts what shows that a request wasn't approved, and the rule by which that is so.
fn put_why(
    html: &mut Html,
    story: &Story<'_>,
    place: u64,
    decision: &Decision,
) -> Result<(), AllocError> {
    match decision {
        Decision::Approved => Ok(()),
        Decision::Rejected { from, view, reason } => {
            if story.tells_of(*from) {
                put_action(html, story, place, *from, view)?;
            }
            html.markup("</td><td>")?;
            put_rule(html, *reason)
        }
        Decision::TimedOut { .. } => {
            html.markup("</td><td>")?;
            html.text(TIMED_OUT)?;
            html.markup(LOG)
        }
    }
}

/// Begins the row of the request at a place, which is seen from the place `from` on.
fn put_head(
    html: &mut Html,
    story: &Story<'_>,
    from: u64,
    place: u64,
    request: &Request,
) -> Result<(), AllocError> {
    let stay = Stay {
        from,
        to: story.last(),
    };
    html.begin_at("tr", stay, story.last())?;
    html.markup("<th scope=\"row\">place ")?;
    html.number(place)?;
    html.markup(", from ")?;
    put_name(html, story, request.sender)?;
    html.markup("</th><td>")
}

/// The lesser of both, or `at` where there is no first one yet.
fn earlier(first: Option<u64>, at: u64) -> u64 {
    match first {
        Some(found) => found.min(at),
        None => at,
    }
}

/// The first place at which somebody of whom the page tells knows that the request is expired. None: nobody knows it on the page's entries.
fn expired_from(story: &Story<'_>, place: u64) -> Option<u64> {
    let mut first: Option<u64> = None;
    for teller in story.tellers.as_slice() {
        for (at, knowledge) in teller.course.states.as_slice().iter().enumerate() {
            if let Some(state) = request_in(knowledge, place) {
                if state.outcome == Outcome::Expired {
                    first = Some(earlier(first, at as u64));
                }
            }
        }
    }
    first
}

/// Puts the row of a request that is expired, if it is.
fn put_expired(
    html: &mut Html,
    story: &Story<'_>,
    place: u64,
    request: &Request,
) -> Result<(), AllocError> {
    if let Some(from) = expired_from(story, place) {
        put_head(html, story, from, place, request)?;
        html.markup("expired</td><td></td><td>")?;
        html.text(EXPIRED)?;
        html.markup(LOG)?;
        html.markup("</td></tr>\n")?;
    }
    Ok(())
}

/// Puts the row of a request whose verdict stands at the place `at`, if that doesn't approve it.
fn put_verdict(
    html: &mut Html,
    story: &Story<'_>,
    at: u64,
    place: u64,
    decision: &Decision,
) -> Result<(), AllocError> {
    let Some(request) = story.request(place) else {
        return Ok(());
    };
    match decision {
        Decision::Approved => Ok(()),
        Decision::Rejected { .. } | Decision::TimedOut { .. } => {
            put_head(html, story, at.saturating_add(1), place, request)?;
            put_decision(html, story, decision)?;
            html.markup("</td><td>")?;
            put_why(html, story, place, decision)?;
            html.markup("</td></tr>\n")
        }
    }
}

/// Puts the part of the page that says why requests weren't approved.
pub(crate) fn put_refusals(html: &mut Html, story: &Story<'_>) -> Result<(), AllocError> {
    html.markup(
        "<section class=\"who\" aria-labelledby=\"refusals\"><h3 id=\"refusals\">Requests that weren't approved</h3>\n",
    )?;
    html.markup(
        "<table><thead><tr><th scope=\"col\">Request</th><th scope=\"col\">Became</th><th scope=\"col\">Shown by</th>
<th scope=\"col\">Rule</th></tr></thead>\n<tbody>",
    )?;
    for (at, entry) in story.log.iter().enumerate() {
        if let Message::Verdict(verdict) = &entry.message {
            if story.is_told(verdict.request) {
                put_verdict(html, story, at as u64, verdict.request, &verdict.decision)?;
            }
        }
    }
    for place in 0..story.last() {
        if let Some(request) = story.request(place) {
            put_expired(html, story, place, request)?;
        }
    }
    html.markup("</tbody></table>\n</section>\n")
}

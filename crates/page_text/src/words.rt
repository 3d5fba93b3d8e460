//! Words on the page.
use crate::html::Html;
use crate::story::Story;
use canton_model::{Decision, LocalVerdict, Outcome, ViewVerdictList};
use ledger_terms::{Instance, ParticipantId, ParticipantIdList};
use report_text::put_instance;
use std::alloc::{AllocError, Global};

/// Puts the name of a participant; nothing where the topology has no such participant.
pub(crate) fn put_name(
    html: &mut Html,
    story: &Story<'_>,
    at: ParticipantId,
) -> Result<(), AllocError> {
    match story.name(at) {
        Some(name) => html.text(name.as_str()),
        None => Ok(()),
    }
}

/// Puts the names of participants with commas between them.
pub(crate) fn put_names(
    html: &mut Html,
    story: &Story<'_>,
    participants: &ParticipantIdList,
) -> Result<(), AllocError> {
    for (at, participant) in participants.as_slice().iter().enumerate() {
        if at > 0 {
            html.markup(", ")?;
        }
        put_name(html, story, *participant)?;
    }
    Ok(())
}

/// Puts a decision of the mediator.
pub(crate) fn put_decision(
    html: &mut Html,
    story: &Story<'_>,
    decision: &Decision,
) -> Result<(), AllocError> {
    match decision {
        Decision::Approved => html.markup("approved"),
        Decision::Rejected { from, view, reason } => {
            html.markup("rejected by ")?;
            put_name(html, story, *from)?;
            html.markup(": view ")?;
            html.path(view)?;
            html.markup(", ")?;
            html.text(reason.name())
        }
        Decision::TimedOut { missing } => {
            html.markup("timed out without ")?;
            put_names(html, story, missing)
        }
    }
}

/// Puts one verdict: approve, or the reason with the number of the action that shows it.
fn put_local(html: &mut Html, verdict: &LocalVerdict) -> Result<(), AllocError> {
    match verdict {
        LocalVerdict::Approve => html.markup("approve"),
        LocalVerdict::Reject { reason, action } => {
            html.text(reason.name())?;
            html.markup(" (action ")?;
            html.number(*action as u64)?;
            html.markup(")")
        }
    }
}

/// Puts verdicts on views.
pub(crate) fn put_verdicts(html: &mut Html, verdicts: &ViewVerdictList) -> Result<(), AllocError> {
    for (at, said) in verdicts.as_slice().iter().enumerate() {
        html.markup(if at > 0 { "; view " } else { "view " })?;
        html.path(&said.view)?;
        html.markup(" ")?;
        put_local(html, &said.verdict)?;
    }
    Ok(())
}

/// Puts a contract's instance, as a report has it.
pub(crate) fn put_contract(
    alloc: Global,
    html: &mut Html,
    instance: &Instance,
) -> Result<(), AllocError> {
    let mut text = String::new(alloc);
    put_instance(&mut text, instance)?;
    html.markup("<code>")?;
    html.text(text.as_str())?;
    html.markup("</code>")
}

/// What an outcome is called, with a sign whose shape says it.
pub(crate) fn outcome_words(outcome: Outcome) -> &'static str {
    match outcome {
        Outcome::Undecided => "\u{2026} undecided",
        Outcome::Approved => "\u{2713} approved",
        Outcome::Rejected => "\u{2717} rejected",
        Outcome::TimedOut => "\u{25f7} timed out",
        Outcome::Expired => "\u{2298} expired",
    }
}

/// The class that gives an outcome its colour; it is one of the chart's style sheet, which holds for the whole page.
pub(crate) fn outcome_class(outcome: Outcome) -> &'static str {
    match outcome {
        Outcome::Approved => "good",
        Outcome::Rejected => "bad",
        Outcome::Undecided | Outcome::TimedOut | Outcome::Expired => "waiting",
    }
}

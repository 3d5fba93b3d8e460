//! The rows of the chart.
use crate::chart::{Chart, ROW};
use crate::lanes::SAYS;
use crate::story::Story;
use canton_model::{
    Decision, Entry, LocalVerdict, Message, Request, Response, Verdict, ViewVerdictList,
};
use ledger_terms::ParticipantId;
use report_text::{put_host, put_number, put_path};
use std::alloc::AllocError;
use svg_text::{Anchor, Dash, Fill, Font, Label, Mark, Paint, Point, Stroke, Tone};

/// How far below a row's top the upper and the lower line stand, and one alone.
const UPPER: u32 = 14;

const LOWER: u32 = 32;

const MIDDLE: u32 = 23;

/// How far the foot of a text is below the middle of its letters, and how much a mark takes.
const FOOT: u32 = 5;

const MARK: u32 = 20;

/// Letters that have room beside the lanes.
const LETTERS: u32 = 40;

/// Draws a row for each entry of the page's log.
pub(crate) fn draw_rows(chart: &mut Chart, story: &Story<'_>) -> Result<(), AllocError> {
    let mut y = 0;
    for (place, entry) in story.log.iter().enumerate() {
        chart.svg.begin_group("entry")?;
        chart.frame(y)?;
        draw_place(chart, y, place as u64, entry.time)?;
        draw_entry(chart, story, y, place as u64, entry)?;
        chart.svg.end_group()?;
        y = y.saturating_add(ROW);
    }
    Ok(())
}

/// The label of a text that begins `x` units from the left and whose letters have their middle at `y`.
fn label(x: u32, y: u32, font: Font, tone: Tone) -> Label {
    Label {
        at: Point {
            x,
            y: y.saturating_add(FOOT),
        },
        anchor: Anchor::Start,
        font,
        tone,
    }
}

fn draw_place(chart: &mut Chart, y: u32, place: u64, time: u64) -> Result<(), AllocError> {
    let place = format!(in chart.alloc; "{place}")?;
    let upper = label(16, y.saturating_add(UPPER), Font::Strong, Tone::Ink);
    chart.svg.text(&upper, place.as_str())?;
    let time = format!(in chart.alloc; "{time}")?;
    let lower = label(16, y.saturating_add(LOWER), Font::Small, Tone::Quiet);
    chart.svg.text(&lower, time.as_str())
}

/// Draws what the page tells of an entry; where it tells nothing, words say so.
fn draw_entry(
    chart: &mut Chart,
    story: &Story<'_>,
    y: u32,
    place: u64,
    entry: &Entry,
) -> Result<(), AllocError> {
    match &entry.message {
        Message::Request(request) if story.is_told(place) => {
            draw_request(chart, story, y, place, request)
        }
        Message::Response(response) if story.tells_of(response.from) => {
            draw_response(chart, story, y, response)
        }
        Message::Verdict(verdict) if story.is_told(verdict.request) => {
            draw_verdict(chart, story, y, verdict)
        }
        Message::Tick if story.reader.is_none() => draw_rest(chart, y, "a Tick moves the time"),
        _ => draw_rest(chart, y, "nothing is told but the time"),
    }
}

fn solid(tone: Tone) -> Stroke {
    Stroke {
        tone,
        dash: Dash::Solid,
    }
}

/// Draws an arrow along the height `y` with a dot where it begins; `from` and `to` are units from the left.
fn draw_arrow(
    chart: &mut Chart,
    from: u32,
    to: u32,
    y: u32,
    stroke: Stroke,
) -> Result<(), AllocError> {
    let paint = Paint {
        tone: stroke.tone,
        fill: Fill::Full,
    };
    chart.svg.circle(Point { x: from, y }, 4, paint)?;
    chart
        .svg
        .arrow(Point { x: from, y }, Point { x: to, y }, stroke)
}

fn draw_words(
    chart: &mut Chart,
    y: u32,
    words: &str,
    font: Font,
    tone: Tone,
) -> Result<(), AllocError> {
    chart.words(&label(SAYS, y, font, tone), words, LETTERS)
}

/// Writes the words of an entry that has no arrows.
fn draw_rest(chart: &mut Chart, y: u32, words: &str) -> Result<(), AllocError> {
    draw_words(
        chart,
        y.saturating_add(MIDDLE),
        words,
        Font::Small,
        Tone::Quiet,
    )
}

/// Draws an arrow from the lane at `from` to each participant of whom the page tells that received the request at a place.
fn draw_recipients(
    chart: &mut Chart,
    story: &Story<'_>,
    y: u32,
    from: u32,
    place: u64,
    stroke: Stroke,
) -> Result<(), AllocError> {
    for (number, teller) in (0..=255u32).zip(story.tellers.as_slice()) {
        if teller.received(place) {
            let to = chart.lanes.middle(number);
            draw_arrow(chart, from, to, y, stroke)?;
        }
    }
    Ok(())
}

fn draw_request(
    chart: &mut Chart,
    story: &Story<'_>,
    y: u32,
    place: u64,
    request: &Request,
) -> Result<(), AllocError> {
    let log = chart.lanes.log();
    let upper = y.saturating_add(UPPER);
    if let Some(from) = chart.lanes.participant(story, request.sender) {
        draw_arrow(chart, from, log, upper, solid(Tone::Ink))?;
    }
    let lower = y.saturating_add(LOWER);
    draw_recipients(chart, story, lower, log, place, solid(Tone::Ink))?;
    let mut words = String::from_str(chart.alloc, "request of ")?;
    put_host(&mut words, &story.setup.topology.hosts, request.sender)?;
    if story.tells_of(request.sender) {
        words.push_str(", ")?;
        words.push_str(request.command.as_str())?;
    }
    draw_words(
        chart,
        y.saturating_add(MIDDLE),
        words.as_str(),
        Font::Strong,
        Tone::Ink,
    )
}

fn put_verdicts(words: &mut String, verdicts: &ViewVerdictList) -> Result<(), AllocError> {
    for said in verdicts.as_slice() {
        words.push_str(" ")?;
        put_path(words, &said.view)?;
        words.push_str("=")?;
        words.push_str(match &said.verdict {
            LocalVerdict::Approve => "approve",
            LocalVerdict::Reject { reason, .. } => reason.name(),
        })?;
    }
    Ok(())
}

/// Whether all of the verdicts approve.
fn is_approval(verdicts: &ViewVerdictList) -> bool {
    verdicts.as_slice().iter().all(|said| match said.verdict {
        LocalVerdict::Approve => true,
        LocalVerdict::Reject { .. } => false,
    })
}

fn draw_response(
    chart: &mut Chart,
    story: &Story<'_>,
    y: u32,
    response: &Response,
) -> Result<(), AllocError> {
    let tone = if is_approval(&response.verdicts) {
        Tone::Good
    } else {
        Tone::Bad
    };
    if let Some(from) = chart.lanes.participant(story, response.from) {
        let to = chart.lanes.mediator(story);
        draw_arrow(chart, from, to, y.saturating_add(MIDDLE), solid(tone))?;
    }
    let request = response.request;
    let first = format!(in chart.alloc; "answers {request}")?;
    draw_words(
        chart,
        y.saturating_add(UPPER),
        first.as_str(),
        Font::Plain,
        Tone::Ink,
    )?;
    let mut second = String::new(chart.alloc);
    put_verdicts(&mut second, &response.verdicts)?;
    draw_words(
        chart,
        y.saturating_add(LOWER),
        second.as_str(),
        Font::Small,
        tone,
    )
}

fn mark_of(decision: &Decision) -> Mark {
    match decision {
        Decision::Approved => Mark::Approved,
        Decision::Rejected { .. } => Mark::Rejected,
        Decision::TimedOut { .. } => Mark::TimedOut,
    }
}

fn put_hosts(
    words: &mut String,
    story: &Story<'_>,
    participants: &[ParticipantId],
) -> Result<(), AllocError> {
    for participant in participants {
        words.push_str(" ")?;
        put_host(words, &story.setup.topology.hosts, *participant)?;
    }
    Ok(())
}

fn put_decision(
    words: &mut String,
    story: &Story<'_>,
    decision: &Decision,
) -> Result<(), AllocError> {
    match decision {
        Decision::Approved => words.push_str("approved"),
        Decision::Rejected { from, view, reason } => {
            words.push_str("rejected by ")?;
            put_host(words, &story.setup.topology.hosts, *from)?;
            words.push_str(": ")?;
            put_path(words, view)?;
            words.push_str(" ")?;
            words.push_str(reason.name())
        }
        Decision::TimedOut { missing } => {
            words.push_str("timed out without")?;
            put_hosts(words, story, missing.as_slice())
        }
    }
}

fn draw_verdict(
    chart: &mut Chart,
    story: &Story<'_>,
    y: u32,
    verdict: &Verdict,
) -> Result<(), AllocError> {
    let mark = mark_of(&verdict.decision);
    let stroke = Stroke {
        tone: mark.tone(),
        dash: Dash::Dashed,
    };
    let from = chart.lanes.mediator(story);
    let middle = y.saturating_add(MIDDLE);
    draw_recipients(chart, story, middle, from, verdict.request, stroke)?;
    let mut first = String::from_str(chart.alloc, "decides ")?;
    put_number(&mut first, verdict.request)?;
    draw_words(
        chart,
        y.saturating_add(UPPER),
        first.as_str(),
        Font::Plain,
        Tone::Ink,
    )?;
    let lower = y.saturating_add(LOWER);
    let at = Point {
        x: SAYS.saturating_add(7),
        y: lower,
    };
    chart.svg.mark(at, mark)?;
    let mut second = String::new(chart.alloc);
    put_decision(&mut second, story, &verdict.decision)?;
    let beside = label(SAYS.saturating_add(MARK), lower, Font::Small, mark.tone());
    chart.words(&beside, second.as_str(), LETTERS)
}

//! The rows of entries.
use crate::heading::{label, quiet};
use crate::layout::{LEFT, ROW_HEIGHT, SAYS_LEFT, WIDTH, at};
use crate::limits::MOST_ROWS;
use crate::outcomes::{mark_of, outcome_at, recipients_at, round_at, withheld_at};
use crate::sheet::Sheet;
use report_read::{Decision, Entry, Lane, LaneSet, Message, Report};
use std::alloc::AllocError;
use svg_text::{Anchor, Dash, Fill, Font, Frame, Label, Mark, Paint, Size, Stroke, Tone};

/// Letters that have room beside the lanes, in the first line and in the second, and in the column of times.
const SAYS_LETTERS: u32 = 38;

const BECAME_LETTERS: u32 = 39;

const TIME_LETTERS: u32 = 16;

/// How far from the row's top its upper and its lower line are drawn and written.
const UPPER: u32 = 16;

const LOWER: u32 = 34;

const MIDDLE: u32 = 24;

/// How far the foot of a text is below the middle of its letters.
const FOOT: u32 = 5;

/// Room for a mark before its words.
const MARK_WIDTH: u32 = 20;

/// How far beside a mark and below it a word stands.
const NEXT: u32 = 8;

const BELOW: u32 = 13;

/// Draws a row for each of the first 500 entries. Where the report has more, a line below says so.
pub fn draw_entries(sheet: &mut Sheet, report: &Report<'_>) -> Result<(), AllocError> {
    for entry in report.entries.as_slice().iter().take(MOST_ROWS) {
        draw_entry(sheet, report, entry)?;
        sheet.skip(ROW_HEIGHT);
    }
    let count = report.entries.len();
    if count > MOST_ROWS {
        let y = sheet.y.saturating_add(MIDDLE);
        let note = format!(in sheet.alloc;
            "The log has {count} entries. The picture ends behind the first {MOST_ROWS}."
        )?;
        sheet
            .svg
            .text(&label(at(LEFT, y), Font::Strong), note.as_str())?;
    }
    sheet.skip(ROW_HEIGHT);
    Ok(())
}

fn draw_entry(sheet: &mut Sheet, report: &Report<'_>, entry: &Entry<'_>) -> Result<(), AllocError> {
    sheet.svg.begin_titled_group("entry", entry.line)?;
    if let Message::Request { .. } = entry.message {
        draw_panel(sheet)?;
    }
    draw_place(sheet, entry)?;
    match entry.message {
        Message::Request {
            sender,
            command,
            recipients,
        } => {
            let withheld = withheld_at(report, entry.place);
            draw_request(sheet, report, sender, &recipients, &withheld)?;
            say_request(sheet, report, entry.place, command, sender)
        }
        Message::Response {
            from,
            request,
            views,
            all_approve,
        } => {
            draw_response(sheet, from, all_approve)?;
            say_response(sheet, request, views, all_approve)
        }
        Message::Verdict { request, decision } => {
            let recipients = recipients_at(report, request);
            draw_verdict(sheet, report, &recipients, decision)?;
            say_verdict(sheet, request, decision)
        }
        Message::Tick => draw_tick(sheet, entry.time),
    }?;
    sheet.svg.end_group()
}

/// Draws the tinted panel behind the row of a request, so that the row is found.
fn draw_panel(sheet: &mut Sheet) -> Result<(), AllocError> {
    let frame = Frame {
        corner: at(8, sheet.y),
        size: Size {
            width: WIDTH.saturating_sub(16),
            height: ROW_HEIGHT,
        },
        radius: 6,
    };
    let paint = Paint {
        tone: Tone::Quiet,
        fill: Fill::Tint,
    };
    sheet.svg.rectangle(frame, paint)
}

/// Writes an entry's place, and its time below.
fn draw_place(sheet: &mut Sheet, entry: &Entry<'_>) -> Result<(), AllocError> {
    let Entry { place, time, .. } = entry;
    let place = format!(in sheet.alloc; "{place}")?;
    let upper = at(LEFT, sheet.y.saturating_add(UPPER + FOOT));
    sheet.words(&label(upper, Font::Strong), place.as_str(), TIME_LETTERS)?;
    let time = format!(in sheet.alloc; "{time}")?;
    let lower = at(LEFT, sheet.y.saturating_add(LOWER + FOOT));
    sheet.words(&quiet(lower, Font::Small), time.as_str(), TIME_LETTERS)
}

fn solid(tone: Tone) -> Stroke {
    Stroke {
        tone,
        dash: Dash::Solid,
    }
}

fn dashed(tone: Tone) -> Stroke {
    Stroke {
        tone,
        dash: Dash::Dashed,
    }
}

/// Draws the full dot at which an arrow begins.
fn draw_dot(sheet: &mut Sheet, x: u32, y: u32, tone: Tone) -> Result<(), AllocError> {
    let paint = Paint {
        tone,
        fill: Fill::Full,
    };
    sheet.svg.circle(at(x, y), 4, paint)
}

/// Draws the request from its sender to the log, and from there to each recipient, with a mark in place of an arrow where it is
/// withheld.
fn draw_request(
    sheet: &mut Sheet,
    report: &Report<'_>,
    sender: Lane,
    recipients: &LaneSet,
    withheld: &LaneSet,
) -> Result<(), AllocError> {
    let upper = sheet.y.saturating_add(UPPER);
    let from = sheet.lanes.participant(sender);
    let log = sheet.lanes.sequencer();
    draw_dot(sheet, from, upper, Tone::Ink)?;
    sheet
        .svg
        .arrow(at(from, upper), at(log, upper), solid(Tone::Ink))?;
    let lower = sheet.y.saturating_add(LOWER);
    draw_dot(sheet, log, lower, Tone::Ink)?;
    for index in 0..report.hosts.len() {
        let lane = Lane(index);
        if withheld.contains(lane) {
            draw_withheld(sheet, lane, lower)?;
        } else if recipients.contains(lane) {
            let to = at(sheet.lanes.participant(lane), lower);
            sheet.svg.arrow(at(log, lower), to, solid(Tone::Ink))?;
        }
    }
    Ok(())
}

/// Draws that a request is withheld from a participant.
fn draw_withheld(sheet: &mut Sheet, lane: Lane, y: u32) -> Result<(), AllocError> {
    let x = sheet.lanes.participant(lane);
    sheet.svg.mark(at(x, y), Mark::Rejected)?;
    let word = Label {
        at: at(x.saturating_add(NEXT), y.saturating_add(BELOW)),
        anchor: Anchor::Start,
        font: Font::Small,
        tone: Tone::Bad,
    };
    sheet.svg.text(&word, "withheld")
}

/// Draws an arrow from the point `from` at the height `y` to each of the recipients' lanes.
fn draw_arrows(
    sheet: &mut Sheet,
    report: &Report<'_>,
    from: u32,
    y: u32,
    recipients: &LaneSet,
    stroke: Stroke,
) -> Result<(), AllocError> {
    for index in 0..report.hosts.len() {
        let lane = Lane(index);
        if recipients.contains(lane) {
            let to = sheet.lanes.participant(lane);
            sheet.svg.arrow(at(from, y), at(to, y), stroke)?;
        }
    }
    Ok(())
}

/// Draws the arrow of a response, from its participant to the mediator.
fn draw_response(sheet: &mut Sheet, from: Lane, all_approve: bool) -> Result<(), AllocError> {
    let y = sheet.y.saturating_add(MIDDLE);
    let tone = if all_approve { Tone::Good } else { Tone::Bad };
    let from = sheet.lanes.participant(from);
    let to = sheet.lanes.mediator();
    draw_dot(sheet, from, y, tone)?;
    sheet.svg.arrow(at(from, y), at(to, y), solid(tone))
}

/// Draws the arrows of a verdict, from the mediator to those who received the request.
fn draw_verdict(
    sheet: &mut Sheet,
    report: &Report<'_>,
    recipients: &LaneSet,
    decision: Decision<'_>,
) -> Result<(), AllocError> {
    let y = sheet.y.saturating_add(MIDDLE);
    let tone = mark_of(decision.ending).tone();
    let from = sheet.lanes.mediator();
    draw_dot(sheet, from, y, tone)?;
    draw_arrows(sheet, report, from, y, recipients, dashed(tone))
}

/// Draws a Tick: a dashed line across the lanes, and beside it the time to which it moves.
fn draw_tick(sheet: &mut Sheet, time: u64) -> Result<(), AllocError> {
    let y = sheet.y.saturating_add(MIDDLE);
    let left = sheet.lanes.participant(Lane(0)).saturating_sub(24);
    let right = sheet.lanes.mediator().saturating_add(24);
    sheet
        .svg
        .line(at(left, y), at(right, y), dashed(Tone::Quiet))?;
    let words = format!(in sheet.alloc; "time moves to {time}")?;
    let middle = at(SAYS_LEFT, y.saturating_add(FOOT));
    sheet.words(&quiet(middle, Font::Plain), words.as_str(), SAYS_LETTERS)
}

/// Writes the upper line of what an entry says.
fn say(sheet: &mut Sheet, words: &str, font: Font) -> Result<(), AllocError> {
    let upper = at(SAYS_LEFT, sheet.y.saturating_add(UPPER + FOOT));
    sheet.words(&label(upper, font), words, SAYS_LETTERS)
}

/// Writes the lower line, which says how a request ended, behind the mark of that.
fn say_ending(sheet: &mut Sheet, decision: Decision<'_>) -> Result<(), AllocError> {
    let mark = mark_of(decision.ending);
    let y = sheet.y.saturating_add(LOWER);
    sheet.svg.mark(at(SAYS_LEFT + 7, y), mark)?;
    let words = Label {
        at: at(SAYS_LEFT + MARK_WIDTH, y.saturating_add(FOOT)),
        anchor: Anchor::Start,
        font: Font::Small,
        tone: mark.tone(),
    };
    sheet.words(&words, decision.words, BECAME_LETTERS)
}

/// Says who sent which request, and in which round; a raw one isn't of a submission.
fn say_request(
    sheet: &mut Sheet,
    report: &Report<'_>,
    place: u64,
    command: &str,
    sender: Lane,
) -> Result<(), AllocError> {
    let name = report.hosts.name(sender).unwrap_or("");
    let words = match round_at(report, place) {
        Some(round) => format!(in sheet.alloc; "{name} {command}, round {round}"),
        None => format!(in sheet.alloc; "{name} {command}, raw"),
    }?;
    say(sheet, words.as_str(), Font::Strong)?;
    match outcome_at(report, place) {
        Some(decision) => say_ending(sheet, decision),
        None => Ok(()),
    }
}

/// Says which request is answered, and the verdicts on its views.
fn say_response(
    sheet: &mut Sheet,
    request: u64,
    views: &str,
    all_approve: bool,
) -> Result<(), AllocError> {
    let words = format!(in sheet.alloc; "answers {request}")?;
    say(sheet, words.as_str(), Font::Plain)?;
    let lower = Label {
        at: at(SAYS_LEFT, sheet.y.saturating_add(LOWER + FOOT)),
        anchor: Anchor::Start,
        font: Font::Small,
        tone: if all_approve { Tone::Good } else { Tone::Bad },
    };
    sheet.words(&lower, views, BECAME_LETTERS)
}

/// Says which request is decided, and how.
fn say_verdict(sheet: &mut Sheet, request: u64, decision: Decision<'_>) -> Result<(), AllocError> {
    let words = format!(in sheet.alloc; "decides {request}")?;
    say(sheet, words.as_str(), Font::Plain)?;
    say_ending(sheet, decision)
}

//! What stands above the entries.
use crate::counts::{Counts, endings_of, title_of};
use crate::layout::{LEFT, SAYS_LEFT, at};
use crate::sheet::{HEADING_HEIGHT, Sheet, rows_height};
use report_read::{Lane, Report};
use std::alloc::AllocError;
use svg_text::{Anchor, Dash, Fill, Font, Frame, Label, Paint, Point, Size, Stroke, Tone};

const TITLE_Y: u32 = 36;

const ENDINGS_Y: u32 = 60;

const NAMES_Y: u32 = 112;

/// Where the box round a lane's name begins, and how high it is.
const BOX_TOP: u32 = 94;

const BOX_HEIGHT: u32 = 27;

/// Letters that have room in the title's line, and units that a letter of a lane's name takes where lanes are wide.
const TITLE_LETTERS: u32 = 90;

const NAME_LETTER: u32 = 9;

/// Units that such a letter takes where lanes are narrow, and from which width on a lane is wide.
const SMALL_LETTER: u32 = 6;

const WIDE_LANE: u32 = 72;

/// Draws the title, what the columns are, and the lanes with their names; the lanes go down to the end of the rows. Then `y` of the sheet is where
/// the first row begins.
pub fn draw_heading(
    sheet: &mut Sheet,
    report: &Report<'_>,
    counts: &Counts,
) -> Result<(), AllocError> {
    draw_title(sheet, counts)?;
    draw_columns(sheet)?;
    let end = HEADING_HEIGHT.saturating_add(rows_height(report.entries.len()));
    for index in 0..report.hosts.len() {
        let lane = Lane(index);
        let x = sheet.lanes.participant(lane);
        draw_lane(sheet, x, report.hosts.name(lane).unwrap_or(""), end)?;
    }
    let x = sheet.lanes.sequencer();
    draw_lane(sheet, x, "log", end)?;
    let x = sheet.lanes.mediator();
    draw_lane(sheet, x, "mediator", end)?;
    sheet.y = HEADING_HEIGHT;
    Ok(())
}

fn draw_title(sheet: &mut Sheet, counts: &Counts) -> Result<(), AllocError> {
    let title = title_of(sheet.alloc, counts)?;
    sheet.words(
        &label(at(LEFT, TITLE_Y), Font::Title),
        title.as_str(),
        TITLE_LETTERS,
    )?;
    let endings = endings_of(sheet.alloc, counts)?;
    let below = quiet(at(LEFT, ENDINGS_Y), Font::Plain);
    sheet.words(&below, endings.as_str(), TITLE_LETTERS)
}

fn draw_columns(sheet: &mut Sheet) -> Result<(), AllocError> {
    let place = quiet(at(LEFT, NAMES_Y.saturating_sub(16)), Font::Small);
    sheet.svg.text(&place, "place")?;
    let time = quiet(at(LEFT, NAMES_Y), Font::Small);
    sheet.svg.text(&time, "time (microseconds)")?;
    let says = quiet(at(SAYS_LEFT, NAMES_Y.saturating_sub(16)), Font::Small);
    sheet.svg.text(&says, "what the entry says")?;
    let became = quiet(at(SAYS_LEFT, NAMES_Y), Font::Small);
    sheet.svg.text(&became, "and what became of the request")
}

/// Draws a lane down to the end of the rows, and its name in a box.
fn draw_lane(sheet: &mut Sheet, x: u32, name: &str, end: u32) -> Result<(), AllocError> {
    let thin = Stroke {
        tone: Tone::Quiet,
        dash: Dash::Thin,
    };
    sheet
        .svg
        .line(at(x, HEADING_HEIGHT.saturating_sub(11)), at(x, end), thin)?;
    let width = sheet.lanes.step().saturating_sub(6);
    let frame = Frame {
        corner: at(x.saturating_sub(width / 2), BOX_TOP),
        size: Size {
            width,
            height: BOX_HEIGHT,
        },
        radius: 6,
    };
    let paint = Paint {
        tone: Tone::Accent,
        fill: Fill::Tint,
    };
    sheet.svg.rectangle(frame, paint)?;
    draw_name(sheet, x, name, width)
}

/// Draws a lane's name, in small letters where lanes are narrow.
fn draw_name(sheet: &mut Sheet, x: u32, name: &str, width: u32) -> Result<(), AllocError> {
    let is_wide = width >= WIDE_LANE;
    let label = Label {
        at: at(x, NAMES_Y),
        anchor: Anchor::Middle,
        font: if is_wide { Font::Strong } else { Font::Small },
        tone: Tone::Accent,
    };
    let letters = if is_wide {
        width / NAME_LETTER
    } else {
        width / SMALL_LETTER
    };
    sheet.words(&label, name, letters)
}

/// Where a line of text stands and how it looks, in the tone of the text: it begins at the point `at`, which is at the height of its foot.
pub fn label(at: Point, font: Font) -> Label {
    Label {
        at,
        anchor: Anchor::Start,
        font,
        tone: Tone::Ink,
    }
}

/// Where a line of text stands and how it looks, in the tone of less important text: it begins at the point `at`, which is at the height of its foot.
pub fn quiet(at: Point, font: Font) -> Label {
    Label {
        at,
        anchor: Anchor::Start,
        font,
        tone: Tone::Quiet,
    }
}

//! The sheet on which a report is drawn.
use crate::counts::{Counts, endings_of, title_of};
use crate::entry_rows::draw_entries;
use crate::heading::draw_heading;
use crate::layout::{LINE_HEIGHT, LIST_GAP, Lanes, ROW_HEIGHT, WIDTH};
use crate::limits::{MOST_ACTIVES, MOST_FIRED, MOST_REFUSED, MOST_ROWS};
use crate::lists::{draw_fired, draw_refused, draw_summaries};
use crate::shortened::{fits, shortened};
use ledger_terms::Text;
use ledger_terms::limits::MOST_PARTICIPANTS;
use report_read::Report;
use std::alloc::{AllocError, Global};
use svg_text::{Label, Size, Svg};

/// The height of the heading, with the names of the lanes.
pub const HEADING_HEIGHT: u32 = 132;

/// A picture in work: what is drawn next stands below `y`.
#[derive(Drop)]
pub struct Sheet {
    pub svg: Svg,
    pub alloc: Global,
    pub lanes: Lanes,
    pub y: u32,
}

impl Sheet {
    /// Moves `y` down by this height, in units.
    pub fn skip(&mut self, height: u32) {
        self.y = self.y.saturating_add(height);
    }

    /// Draws `words` as one line, where `label` says and with its look; `y` stays. Where they are wider than `letters` letters, of which a character
    /// from U+1100 on counts as two, they are cut, with an ellipsis at the end, and have the whole text as their title.
    pub fn words(&mut self, label: &Label, words: &str, letters: u32) -> Result<(), AllocError> {
        if fits(words, letters) {
            return self.svg.text(label, words);
        }
        let short = shortened(self.alloc, words, letters)?;
        self.svg.titled_text(label, short.as_str(), words)
    }
}

/// The picture of a report as SVG: its heading, its entries, and the lists below them.
pub fn draw(alloc: Global, report: &Report<'_>) -> Result<Text, AllocError> {
    let counts = Counts::of(report);
    let mut sheet = begin(alloc, report, &counts)?;
    draw_heading(&mut sheet, report, &counts)?;
    draw_entries(&mut sheet, report)?;
    draw_refused(&mut sheet, report, counts.refused)?;
    draw_fired(&mut sheet, report)?;
    draw_summaries(&mut sheet, report)?;
    let Sheet { svg, .. } = sheet;
    svg.finish()
}

/// The sheet with nothing on it but its page; its size is that of all that will be drawn.
fn begin(alloc: Global, report: &Report<'_>, counts: &Counts) -> Result<Sheet, AllocError> {
    let title = title_of(alloc, counts)?;
    let description = endings_of(alloc, counts)?;
    let size = Size {
        width: WIDTH,
        height: height_of(report, counts),
    };
    let svg = Svg::new(alloc, size, title.as_str(), description.as_str())?;
    Ok(Sheet {
        svg,
        alloc,
        lanes: Lanes::of(report.hosts.len()),
        y: 0,
    })
}

/// How high the picture is.
fn height_of(report: &Report<'_>, counts: &Counts) -> u32 {
    let refused = height_if_any(counts.refused, MOST_REFUSED);
    let fired = height_if_any(report.fired.len(), MOST_FIRED);
    let actives = listed(report.actives.len(), MOST_ACTIVES);
    let summaries = report.summaries.len().min(MOST_PARTICIPANTS) as u32;
    HEADING_HEIGHT
        .saturating_add(rows_height(report.entries.len()))
        .saturating_add(ROW_HEIGHT)
        .saturating_add(refused)
        .saturating_add(fired)
        .saturating_add(list_height(summaries.saturating_add(actives)))
}

/// How high a list of `count` items is, of which at most `most` are drawn; 0 where there are no items, as it isn't drawn then.
fn height_if_any(count: usize, most: usize) -> u32 {
    if count == 0 {
        0
    } else {
        list_height(listed(count, most))
    }
}

/// How many lines a list of `count` items has, of which at most `most` are drawn: one line more says that there are others.
fn listed(count: usize, most: usize) -> u32 {
    if count > most {
        (most.min(MOST_ROWS) as u32).saturating_add(1)
    } else {
        count.min(MOST_ROWS) as u32
    }
}

/// How high the rows of so many entries are together, in units. Only the first 500 entries have rows.
pub fn rows_height(entries: usize) -> u32 {
    let rows = entries.min(MOST_ROWS) as u32;
    rows.saturating_mul(ROW_HEIGHT)
}

/// How high a list of so many lines is, with its title and the gap behind it.
fn list_height(lines: u32) -> u32 {
    lines
        .saturating_add(1)
        .saturating_mul(LINE_HEIGHT)
        .saturating_add(LIST_GAP)
}

//! The sequence chart.
use crate::chart_rows::draw_rows;
use crate::lanes::{Lanes, WIDTH};
use crate::story::Story;
use ledger_terms::Text;
use std::alloc::{AllocError, Global};
use svg_text::{Dash, Fill, Frame, Label, Paint, Point, Size, Stroke, Svg, Tone};

/// The height of a chart's row, in units.
pub(crate) const ROW: u32 = 44;

/// Rows for which there is room.
const MOST_ROWS: usize = 10_000;

/// A chart in work: what is drawn so far, and where the lanes stand.
#[derive(Drop)]
pub(crate) struct Chart {
    pub svg: Svg,
    pub alloc: Global,
    pub lanes: Lanes,
}

/// At most `most` letters of a text; where it has more, the last of these is an ellipsis.
pub(crate) fn shortened(alloc: Global, text: &str, most: u32) -> Result<String, AllocError> {
    let mut kept = String::new(alloc);
    if text.chars().count() <= most as usize {
        kept.push_str(text)?;
        return Ok(kept);
    }
    for (_, letter) in (1..most).zip(text.chars()) {
        kept.push(letter)?;
    }
    kept.push('\u{2026}')?;
    Ok(kept)
}

impl Chart {
    /// Draws a line of text. Where it has more than `most` letters it is cut, and has the whole text as its title.
    pub fn words(&mut self, label: &Label, words: &str, most: u32) -> Result<(), AllocError> {
        let short = shortened(self.alloc, words, most)?;
        if short.as_str() == words {
            self.svg.text(label, words)
        } else {
            self.svg.titled_text(label, short.as_str(), words)
        }
    }

    /// Draws the line of a lane down to the height `end`; `x` is how far it is from the left edge.
    fn lane(&mut self, x: u32, end: u32) -> Result<(), AllocError> {
        let stroke = Stroke {
            tone: Tone::Quiet,
            dash: Dash::Thin,
        };
        let top = Point { x, y: 0 };
        self.svg.line(top, Point { x, y: end }, stroke)
    }

    /// Draws the frame of the row whose top is `y` units from that of the chart. The style sheet hides it, but in the row of the entry that was read
    /// last.
    pub fn frame(&mut self, y: u32) -> Result<(), AllocError> {
        let frame = Frame {
            corner: Point {
                x: 4,
                y: y.saturating_add(2),
            },
            size: Size {
                width: WIDTH - 8,
                height: ROW - 4,
            },
            radius: 6,
        };
        let paint = Paint {
            tone: Tone::Accent,
            fill: Fill::Clear,
        };
        self.svg.rectangle(frame, paint)
    }
}

fn draw_lanes(chart: &mut Chart, story: &Story<'_>, end: u32) -> Result<(), AllocError> {
    let lanes = chart.lanes;
    for (number, _) in (0..=255u32).zip(story.tellers.as_slice()) {
        chart.lane(lanes.middle(number), end)?;
    }
    chart.lane(lanes.log(), end)?;
    match story.reader {
        Some(_) => Ok(()),
        None => chart.lane(lanes.mediator(story), end),
    }
}

/// The chart of the page's entries as SVG: who sent what to whom, as far as the page tells it.
pub(crate) fn chart_of(story: &Story<'_>) -> Result<Text, AllocError> {
    let rows = story.log.len().min(MOST_ROWS) as u32;
    let end = rows.saturating_mul(ROW);
    let size = Size {
        width: WIDTH,
        height: end,
    };
    let svg = Svg::new(
        story.alloc,
        size,
        "The log as a sequence chart",
        "A row for each entry: its place, its time, who sends what to whom, and what it says. The text beside it says the same.",
    )?;
    let lanes = Lanes::of(story);
    let alloc = story.alloc;
    let mut chart = Chart { svg, alloc, lanes };
    draw_lanes(&mut chart, story, end)?;
    draw_rows(&mut chart, story)?;
    let Chart { svg, .. } = chart;
    svg.finish()
}

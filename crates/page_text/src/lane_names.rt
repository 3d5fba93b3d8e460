//! The names of the chart's lanes.
use crate::html::Html;
use crate::lanes::Lanes;
use crate::story::Story;
use std::alloc::AllocError;

/// Puts a width in units as a percentage of the chart's width, which is 1,000 units.
fn put_percent(html: &mut Html, units: u32) -> Result<(), AllocError> {
    html.number((units / 10) as u64)?;
    html.markup(".")?;
    html.number((units % 10) as u64)?;
    html.markup("%")
}

/// Puts the name of the lane whose middle is at `middle` units, above it.
fn put_lane_name(
    html: &mut Html,
    lanes: &Lanes,
    middle: u32,
    name: &str,
) -> Result<(), AllocError> {
    html.markup("<span style=\"left:")?;
    put_percent(html, middle.saturating_sub(lanes.step() / 2))?;
    html.markup(";width:")?;
    put_percent(html, lanes.step())?;
    html.markup("\" title=\"")?;
    html.text(name)?;
    html.markup("\">")?;
    html.text(name)?;
    html.markup("</span>")
}

/// Puts the names of the lanes in a row that stays while the chart moves below it.
pub(crate) fn put_lane_names(html: &mut Html, story: &Story<'_>) -> Result<(), AllocError> {
    let lanes = Lanes::of(story);
    html.markup("<div class=\"lanes\">")?;
    for (number, teller) in (0..=255u32).zip(story.tellers.as_slice()) {
        put_lane_name(html, &lanes, lanes.middle(number), teller.name.as_str())?;
    }
    put_lane_name(html, &lanes, lanes.log(), "log")?;
    if story.reader.is_none() {
        put_lane_name(html, &lanes, lanes.mediator(story), "mediator")?;
    }
    html.markup("</div>\n")
}

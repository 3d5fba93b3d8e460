//! What stands above the chart.
use crate::html::Html;
use crate::says::put_places;
use crate::story::Story;
use crate::style::STYLE;
use crate::words::put_name;
use std::alloc::AllocError;

/// The page's beginning, with its title.
pub(crate) fn put_head(html: &mut Html, story: &Story<'_>) -> Result<(), AllocError> {
    html.markup(
        "<!DOCTYPE html>\n<html xmlns=\"http://www.w3.org/1999/xhtml\" lang=\"en\">\n<head>\n<meta charset=\"utf-8\"/>\n",
    )?;
    html.markup(
        "<meta name=\"viewport\" content=\"width=device-width, initial-scale=1\"/>\n<title>",
    )?;
    put_title(html, story)?;
    html.markup("</title>\n")?;
    html.markup(STYLE)?;
    html.markup("</head>\n<body>\n<header>\n<h1>")?;
    put_title(html, story)?;
    html.markup("</h1>\n")?;
    put_lead(html, story)?;
    html.markup("</header>\n")?;
    put_steps(html, story)
}

fn put_title(html: &mut Html, story: &Story<'_>) -> Result<(), AllocError> {
    match story.reader {
        Some(me) => {
            html.markup("A run as ")?;
            put_name(html, story, me)?;
            html.markup(" knows it")
        }
        None => html.markup("A run, place by place"),
    }
}

fn put_lead(html: &mut Html, story: &Story<'_>) -> Result<(), AllocError> {
    html.markup(
        "<p>Who knew what, and when. At place n the first n entries of the log were read.
Step by the buttons, the slider, the arrow keys, Home and End.</p>\n",
    )?;
    html.markup("<noscript><p>Without the script the last place is shown.</p></noscript>\n")?;
    if story.is_cut() {
        html.markup("<p><b>The log has ")?;
        html.number(story.entries)?;
        html.markup(" entries. The page ends behind the first ")?;
        html.number(story.last())?;
        html.markup(".</b></p>\n")?;
    }
    Ok(())
}

/// Puts the slider and the buttons, which the script shows, and what stands at the place.
fn put_steps(html: &mut Html, story: &Story<'_>) -> Result<(), AllocError> {
    html.markup(
        "<nav id=\"steps\" class=\"steps\" aria-label=\"Places of the log\">\n<button type=\"button\" id=\"back\" hidden=\"\">\u{25c0} Back</button>\n",
    )?;
    html.markup(
        "<label for=\"place\" hidden=\"\">Place</label><input type=\"range\" id=\"place\" hidden=\"\" min=\"0\" max=\"",
    )?;
    html.number(story.last())?;
    html.markup("\" value=\"")?;
    html.number(story.last())?;
    html.markup("\"/>\n<button type=\"button\" id=\"on\" hidden=\"\">On \u{25b6}</button>\n")?;
    put_places(html, story)?;
    html.markup("</nav>\n")
}

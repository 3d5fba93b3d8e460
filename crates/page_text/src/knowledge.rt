//! What each participant knows.
use crate::contracts::put_contracts;
use crate::html::Html;
use crate::requests::put_requests;
use crate::stay::Stay;
use crate::story::Story;
use crate::teller::Teller;
use ledger_terms::{Name, U64List};
use page_data::Knowledge;
use std::alloc::AllocError;

fn put_clean(
    html: &mut Html,
    story: &Story<'_>,
    stay: Stay,
    knowledge: &Knowledge,
) -> Result<(), AllocError> {
    html.begin_at("p", stay, story.last())?;
    html.markup("Clean place <b>")?;
    html.number(knowledge.clean)?;
    html.markup("</b>, time ")?;
    html.number(knowledge.clean_time)?;
    html.markup(".")?;
    put_withheld(html, &knowledge.withheld)?;
    html.markup("</p>\n")
}

fn put_withheld(html: &mut Html, places: &U64List) -> Result<(), AllocError> {
    if places.is_empty() {
        return Ok(());
    }
    html.markup(" <span class=\"bad\">Withheld from it below that place: the requests at")?;
    for place in places.as_slice() {
        html.markup(" ")?;
        html.number(*place)?;
    }
    html.markup(".</span>")
}

/// Whether the clean place, its time and the withheld places are the same. Withheld places are only added from place to place, so their number tells.
fn is_same(one: &Knowledge, other: &Knowledge) -> bool {
    one.clean == other.clean
        && one.clean_time == other.clean_time
        && one.withheld.len() == other.withheld.len()
}

/// Puts the clean place with what is withheld below it: a line for each stretch of places over which that stays the same.
fn put_cleans(html: &mut Html, story: &Story<'_>, teller: &Teller) -> Result<(), AllocError> {
    let states = teller.course.states.as_slice();
    let Some((first, others)) = states.split_first() else {
        return Ok(());
    };
    let mut now = first;
    let mut from = 0;
    let mut to = 0;
    for next in others {
        if !is_same(now, next) {
            put_clean(html, story, Stay { from, to }, now)?;
            now = next;
            from = to.saturating_add(1);
        }
        to = to.saturating_add(1);
    }
    put_clean(html, story, Stay { from, to }, now)
}

fn put_parties(html: &mut Html, what: &'static str, parties: &[Name]) -> Result<(), AllocError> {
    for (at, party) in parties.iter().enumerate() {
        html.markup(if at > 0 { ", " } else { what })?;
        html.text(party.as_str())?;
    }
    Ok(())
}

/// Puts the parties that the participant confirms for, and those that it only observes.
fn put_hosted(html: &mut Html, story: &Story<'_>, teller: &Teller) -> Result<(), AllocError> {
    html.markup("<p class=\"quiet\">")?;
    if let Some(host) = story.setup.topology.host(teller.me) {
        put_parties(html, "Confirms for ", host.parties.as_slice())?;
        if !host.parties.is_empty() && !host.observing.is_empty() {
            html.markup("; ")?;
        }
        put_parties(html, "observes ", host.observing.as_slice())?;
    }
    html.markup("</p>\n")
}

/// Puts the part of the page that says what one participant knows.
pub(crate) fn put_knowledge(
    html: &mut Html,
    story: &Story<'_>,
    teller: &Teller,
) -> Result<(), AllocError> {
    html.markup("<section class=\"who\" aria-labelledby=\"who-")?;
    html.number(teller.me.0 as u64)?;
    html.markup("\"><h3 id=\"who-")?;
    html.number(teller.me.0 as u64)?;
    html.markup("\">")?;
    html.text(teller.name.as_str())?;
    html.markup("</h3>\n")?;
    put_hosted(html, story, teller)?;
    put_cleans(html, story, teller)?;
    put_contracts(html, story, teller)?;
    put_requests(html, story, teller)?;
    html.markup("</section>\n")
}

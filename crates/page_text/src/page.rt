//! From a log to its page.
ghost use Rattle.std.specs.Prelude.{◌≡◌, ◌<◌, ◌^◌, length};
ghost use Rattle.canton_model.specs.Genuine.{Genuine};
ghost use Rattle.framed_form.specs.FramedReading.{framed_reading};

use crate::chart::chart_of;
use crate::head::put_head;
use crate::html::Html;
use crate::knowledge::put_knowledge;
use crate::lane_names::put_lane_names;
use crate::mediation::put_mediation;
use crate::refusals::put_refusals;
use crate::script::SCRIPT;
use crate::story::Story;
use crate::teller::{Teller, TellerList};
use canton_model::Entry;
use confirm_reply::Setup;
use ledger_terms::{ParticipantId, Text};
use page_data::{course_of, waiting_over};
use std::alloc::{AllocError, Global};

/// The participants of whom the page tells, with what they learnt: all, or `reader` alone.
fn tellers_of(
    alloc: Global,
    setup: &Setup,
    log: &[Entry],
    reader: Option<ParticipantId>,
) -> Result<TellerList, AllocError>
    requires genuine { Genuine (framed_reading setup.now.topology setup.now.checked) setup.now.topology.params log.now }
    requires few { length log.now < 2 ^ 63 }
{
    let mut tellers = TellerList::new(alloc);
    for (at, host) in (0..=255u8).zip(setup.topology.hosts.as_slice()) {
        let me = ParticipantId(at);
        let is_told = match reader {
            Some(reader) => reader == me,
            None => true,
        };
        if is_told {
            let course = course_of(alloc, setup, me, log)?;
            let name = host.name;
            tellers.push(Teller { me, name, course })?;
        }
    }
    Ok(tellers)
}

// The reader once more, since a call takes it whole.
fn same_reader(reader: &Option<ParticipantId>) -> Option<ParticipantId>
    ensures { result ≡ reader.now }
{
    match reader {
        Some(me) => Some(*me),
        None => None,
    }
}

fn put_chart(html: &mut Html, story: &Story<'_>) -> Result<(), AllocError> {
    html.markup("<main>\n<section aria-labelledby=\"log\"><h2 id=\"log\">The log</h2>\n")?;
    html.markup(
        "<div class=\"chart\" tabindex=\"0\" role=\"region\" aria-labelledby=\"log\">\n<div class=\"drawing\">",
    )?;
    put_lane_names(html, story)?;
    html.picture(&chart_of(story)?)?;
    html.markup("</div></div></section>\n")
}

fn put_parts(html: &mut Html, story: &Story<'_>) -> Result<(), AllocError> {
    html.markup(
        "<section aria-labelledby=\"known\"><h2 id=\"known\">What each knows at the place</h2>\n<div class=\"grid\">\n",
    )?;
    for teller in story.tellers.as_slice() {
        put_knowledge(html, story, teller)?;
    }
    if story.reader.is_none() {
        put_mediation(html, story)?;
    }
    html.markup("</div>\n<div class=\"wide\">\n")?;
    put_refusals(html, story)?;
    html.markup("</div></section>\n</main>\n")
}

/// The page of a log's first entries as HTML: of all participants and the mediator, or, where `reader` is a participant, of what that one knows and
/// nothing else. The setup has the topology and the packages; the whole log has `entries` entries, and `log` are the first of them.
pub fn page_of<'p>(
    alloc: Global,
    setup: &'p Setup,
    entries: u64,
    log: &'p [Entry],
    reader: Option<ParticipantId>,
) -> Result<Text, AllocError>
    requires genuine { Genuine (framed_reading setup.now.topology setup.now.checked) setup.now.topology.params log.now }
    requires few { length log.now < 2 ^ 63 }
{
    let tellers = tellers_of(alloc, setup, log, same_reader(&reader))?;
    let waiting = waiting_over(alloc, &setup.topology.params, log)?;
    let story = Story {
        alloc,
        setup,
        entries,
        log,
        tellers: &tellers,
        waiting: &waiting,
        reader,
    };
    let mut html = Html::new(alloc);
    put_head(&mut html, &story)?;
    put_chart(&mut html, &story)?;
    put_parts(&mut html, &story)?;
    html.markup(SCRIPT)?;
    html.markup("</body>\n</html>\n")?;
    html.finish(alloc)
}

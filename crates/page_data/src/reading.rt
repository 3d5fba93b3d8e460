//! A log read again, entry by entry.
ghost use Rattle.std.specs.Prelude.{◌≡◌, ◌<◌, ◌^◌, true, length, IfOk, OnOk};
ghost use Rattle.ledger_terms.specs.declared.topology.Topology.{Topology};
ghost use Rattle.canton_model.specs.Genuine.{Genuine};
ghost use Rattle.canton_model.specs.declared.message.Message.TheVariants.{Request as RequestMessage};
ghost use Rattle.canton_model.specs.declared.request.Request.{Request as RequestValue};
ghost use Rattle.framed_form.specs.Framed.{is_framed};
ghost use Rattle.framed_form.specs.FramedReading.{framed_reading};
ghost use Rattle.framed_form.specs.Outlines.{IsOutlined};
ghost use Rattle.node_inbox.specs.Entries.{item_from};
ghost use Rattle.node_inbox.specs.InboxState.{begun, params_of, reading_of, with_item};
ghost use Rattle.page_data.specs.Courses.{MayRead, each_knowledge, inbox_over};
ghost use Rattle.page_data.specs.Knowledge.{store_rows};
ghost use Rattle.page_data.specs.Owing.{owed_below};

use crate::course::Course;
use crate::gathering::{knowledge_of, store_rows};
use crate::knowledge::KnowledgeList;
use crate::owing::owed_by;
use canton_model::{Entry, Message};
use confirm_reply::Setup;
use framed_form::{Outline, read_outline};
use ledger_terms::ParticipantId;
use node_inbox::Inbox;
use std::alloc::{AllocError, Global};

// What the mediator's bytes tell, where the message is a request.
fn outline_of(alloc: Global, message: &Message) -> Result<Option<Outline>, AllocError>
    requires { (topology : Topology) × ((q : RequestValue) → message.now ≡ RequestMessage q → is_framed topology q ≡ true) }
    ensures { IfOk result (λ outline. IsOutlined message.now outline) }
{
    match message {
        Message::Request(request) => match read_outline(alloc, request)? {
            Some(outline) => Ok(Some(outline)),
            None => unreachable!(),
        },
        Message::Response(_) => Ok(None),
        Message::Verdict(_) => Ok(None),
        Message::Tick => Ok(None),
    }
}

fn read_entry(alloc: Global, inbox: &mut Inbox<'_>, entry: &Entry) -> Result<(), AllocError>
    requires { MayRead inbox.old entry.now }
    ensures { OnOk result (inbox.new ≡ with_item inbox.old (item_from (reading_of inbox.old) inbox.old.me inbox.old.items entry.now)) }
{
    let outline = outline_of(alloc, &entry.message)?;
    inbox.read(entry, outline.as_ref())
}

// Reads the whole log, and gathers what is known before the first entry and after each.
fn states_of(
    alloc: Global,
    inbox: &mut Inbox<'_>,
    log: &[Entry],
) -> Result<KnowledgeList, AllocError>
    requires begun { inbox.old ≡ begun inbox.old.topology inbox.old.packages inbox.old.me }
    requires genuine { Genuine (reading_of inbox.old) (params_of inbox.old) log.now }
    requires few { length log.now < 2 ^ 63 }
    ensures inbox { OnOk result (inbox.new ≡ inbox_over inbox.old.topology inbox.old.packages inbox.old.me log.now) }
    ensures states { IfOk result (λ states. states
        ≡ each_knowledge inbox.old.topology inbox.old.packages inbox.old.me log.now (length log.now)) }
{
    let mut states = KnowledgeList::new(alloc);
    states.push(knowledge_of(alloc, inbox)?)?;
    'entries: for at in 0..log.len() {
        read_entry(alloc, inbox, &log[at])?;
        states.push(knowledge_of(alloc, inbox)?)?;
    }
    Ok(states)
}

// Reads the whole log, and asks what was learnt of it.
fn read_course(alloc: Global, inbox: &mut Inbox<'_>, log: &[Entry]) -> Result<Course, AllocError>
    requires begun { inbox.old ≡ begun inbox.old.topology inbox.old.packages inbox.old.me }
    requires genuine { Genuine (reading_of inbox.old) (params_of inbox.old) log.now }
    requires few { length log.now < 2 ^ 63 }
    ensures states { IfOk result (λ course. course.states
        ≡ each_knowledge inbox.old.topology inbox.old.packages inbox.old.me log.now (length log.now)) }
    ensures contracts { IfOk result (λ course. course.contracts
        ≡ store_rows (inbox_over inbox.old.topology inbox.old.packages inbox.old.me log.now)) }
    ensures owed { IfOk result (λ course. course.owed
        ≡ owed_below (inbox_over inbox.old.topology inbox.old.packages inbox.old.me log.now) (length log.now)) }
{
    let states = states_of(alloc, inbox, log)?;
    let contracts = store_rows(alloc, inbox)?;
    let owed = owed_by(alloc, inbox)?;
    Ok(Course {
        states,
        contracts,
        owed,
    })
}

/// What participant `me`, which forgets nothing, learns of a genuine log, which it reads as it did in the run: what it knows before the first entry and
/// after each, the contracts of which it is told, and the verdicts that it owes. An Err is want of memory.
pub fn course_of(
    alloc: Global,
    setup: &Setup,
    me: ParticipantId,
    log: &[Entry],
) -> Result<Course, AllocError>
    requires genuine { Genuine (framed_reading setup.now.topology setup.now.checked) setup.now.topology.params log.now }
    requires few { length log.now < 2 ^ 63 }
    ensures states { IfOk result (λ course. course.states ≡ each_knowledge setup.now.topology setup.now.checked me log.now (length log.now)) }
    ensures contracts { IfOk result (λ course. course.contracts ≡ store_rows (inbox_over setup.now.topology setup.now.checked me log.now)) }
    ensures owed { IfOk result (λ course. course.owed ≡ owed_below (inbox_over setup.now.topology setup.now.checked me log.now) (length log.now)) }
{
    let mut inbox = Inbox::new(alloc, setup, me);
    read_course(alloc, &mut inbox, log)
}

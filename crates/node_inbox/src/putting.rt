//! One item is put behind those that were read, and what is kept beside them follows.
ghost use Rattle.std.specs.Prelude.{◌≡◌, ◌<◌, ◌^◌, length, IfNone, IfSome, OnErr, OnOk};
ghost use Rattle.canton_model.specs.Inbox.{Told, Nothing, last_time};
ghost use Rattle.inbox_registry.specs.Requests.{decision_after, told_time};
ghost use Rattle.node_inbox.specs.Coming.{IsComing, IsTelling};
ghost use Rattle.node_inbox.specs.Items.{model_content, model_items};
ghost use Rattle.node_inbox.specs.Kept.{IsInbox};
ghost use Rattle.inbox_registry.specs.Room.{HasRoom};
ghost use Rattle.node_inbox.specs.Reads.{HasRead, IsSettled, IsUnread, item_with};
ghost use Rattle.node_inbox.specs.declared.kept_item.KeptContent.TheVariants as Content;
ghost use Rattle.framed_form.specs.FramedReading.{framed_reading};

use crate::coming::ComingRequest;
use crate::kept_item::{KeptContent, KeptItem};
use crate::kept_items::KeptItems;
use crate::telling::ComingVerdict;
use canton_model::Outcome;
use confirm_reply::Setup;
use inbox_registry::{Change, Registry};
use ledger_terms::{Params, ParticipantId};
use std::alloc::AllocError;

// The decision time of a request, or the greatest time that can be told.
fn decision_of(params: &Params, time: u64) -> u64
    ensures { result ≡ told_time (decision_after params.now time) }
{
    time.saturating_add(params.response_timeout)
        .saturating_add(params.reaction_timeout)
}

/// Puts an item that brings nothing behind the others, and the registry follows. `time` is its entry's, in microseconds. `setup` and `me` are there for
/// the contract alone. An error leaves the items as they were.
pub fn put_nothing(
    setup: &Setup,
    me: ParticipantId,
    items: &mut KeptItems,
    registry: &mut Registry,
    time: u64,
) -> Result<(), AllocError>
    requires few { length items.old.items < 2 ^ 63 }
    requires rises { last_time (model_items items.old.items) < time }
    requires inbox { IsInbox setup.now.topology setup.now.checked me items.old.items registry.old }
    ensures ok { OnOk result (HasRead setup.now.topology setup.now.checked me items.old.items items.new.items registry.old.start registry.new
        (item_with time Nothing)) }
    ensures err { OnErr result (IsUnread setup.now.topology setup.now.checked me items.old.items items.new.items registry.old.start registry.new) }
{
    items.reserve()?;
    registry.pass(time);
    registry.advance();
    items.push_within(KeptItem {
        time,
        content: KeptContent::Nothing,
    });
    Ok(())
}

/// Puts the item of a request of which participant `me` is a recipient behind the others, and the registry follows: the request is tracked, and holds
/// the contracts that it changes. `time` is its entry's, in microseconds. `me` is there for the contract alone. An error leaves the items as they were.
pub fn put_request(
    setup: &Setup,
    me: ParticipantId,
    items: &mut KeptItems,
    registry: &mut Registry,
    time: u64,
    coming: ComingRequest,
) -> Result<(), AllocError>
    requires few { length items.old.items < 2 ^ 63 }
    requires rises { last_time (model_items items.old.items) < time }
    requires inbox { IsInbox setup.now.topology setup.now.checked me items.old.items registry.old }
    requires coming { IsComing setup.now.topology setup.now.checked me coming }
    ensures ok { OnOk result (HasRead setup.now.topology setup.now.checked me items.old.items items.new.items registry.old.start registry.new
        (item_with time (model_content (Content.Received coming.kept)))) }
    ensures err { OnErr result (IsUnread setup.now.topology setup.now.checked me items.old.items items.new.items registry.old.start registry.new) }
{
    let ComingRequest { mut kept, ids } = coming;
    items.reserve()?;
    registry.begin(decision_of(&setup.topology.params, time), &ids)?;
    let place = registry.cursor();
    registry.pass(time);
    kept.put_facts(registry);
    registry.hold(place, &ids);
    registry.advance();
    items.push_within(KeptItem {
        time,
        content: KeptContent::Received(kept),
    });
    Ok(())
}

/// Puts the item of a verdict on a received request behind the others, and the registry follows: a first verdict settles its request, and its changes
/// are written. `time` is its entry's, in microseconds. `setup` and `me` are there for the contract alone. An error leaves the items as they were.
pub fn put_verdict(
    setup: &Setup,
    me: ParticipantId,
    items: &mut KeptItems,
    registry: &mut Registry,
    time: u64,
    coming: ComingVerdict,
) -> Result<(), AllocError>
    requires few { length items.old.items < 2 ^ 63 }
    requires rises { last_time (model_items items.old.items) < time }
    requires inbox { IsInbox setup.now.topology setup.now.checked me items.old.items registry.old }
    requires coming { IsTelling (framed_reading setup.now.topology setup.now.checked) (model_items items.old.items) coming.verdict coming }
    ensures ok { OnOk result (HasRead setup.now.topology setup.now.checked me items.old.items items.new.items registry.old.start registry.new
        (item_with time (Told coming.verdict))) }
    ensures err { OnErr result (IsUnread setup.now.topology setup.now.checked me items.old.items items.new.items registry.old.start registry.new) }
{
    let ComingVerdict {
        verdict,
        first,
        changes,
    } = coming;
    items.reserve()?;
    registry.make_room(&changes)?;
    registry.pass(time);
    settle_if(registry, verdict.request, first, changes);
    registry.advance();
    items.push_within(KeptItem {
        time,
        content: KeptContent::Told(verdict),
    });
    Ok(())
}

// The request at a place is settled, where there is an outcome.
fn settle_if(registry: &mut Registry, place: u64, outcome: Option<Outcome>, changes: Vec<Change>)
    requires { HasRoom registry.old.store.ready registry.old.store.spare changes.items }
    ensures some { IfSome outcome (λ o. IsSettled registry.old registry.new place o changes.items) }
    ensures none { IfNone outcome (registry.new ≡ registry.old) }
{
    if let Some(outcome) = outcome {
        registry.settle(place, outcome, changes);
    }
}

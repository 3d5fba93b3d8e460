//! When a request was decided.
ghost use Rattle.std.specs.Prelude.{◌≡◌, ◌+◌, ◌<◌, ◌≤◌, drop, is_some, nat_lt, length};
ghost use Rattle.canton_model.specs.Inbox.{verdict_in};
ghost use Rattle.canton_model.specs.Timeline.{decision_on};
ghost use Rattle.inbox_registry.specs.Order.{IsInOrder};
ghost use Rattle.node_inbox.specs.Decisions.{decided_from, start_of};
ghost use Rattle.node_inbox.specs.InboxState.{decided_since};
ghost use Rattle.node_inbox.specs.Items.{model_content, model_items};

use crate::items::time_at;
use crate::kept_item::KeptContent;
use crate::kept_items::KeptItems;
use ledger_terms::Params;

fn is_later(time: u64, wait: u64, more: u64, later: u64) -> bool
    ensures { result ≡ nat_lt (time + wait + more) later }
{
    more < later.saturating_sub(time).saturating_sub(wait)
}

// Whether a verdict on the request at a place came.
fn is_verdict_on(content: &KeptContent, place: u64) -> bool
    ensures { result ≡ is_some (decision_on place (verdict_in (model_content content.now))) }
{
    match content {
        KeptContent::Told(verdict) => verdict.request == place,
        KeptContent::Received(_) => false,
        KeptContent::Nothing => false,
    }
}

// The place from which on items can decide the request at a place.
fn start_of(items: &KeptItems, place: u64) -> u64
    ensures start { result ≡ start_of (length items.now.items) place }
    ensures within { result ≤ length items.now.items }
{
    if place < items.len() { place } else { 0 }
}

// Where the request at a place, which came at that time, is decided among the items from a place on.
fn decided_among(params: &Params, items: &KeptItems, place: u64, time: u64, start: u64) -> u64
    requires { start ≤ length items.now.items }
    ensures { result ≡ decided_from (time + params.now.response_timeout + params.now.reaction_timeout) place start (model_items (drop start items.now.items)) }
{
    let end = items.len();
    'items: for k in start..end {
        let item = items.item(k);
        if is_later(
            time,
            params.response_timeout,
            params.reaction_timeout,
            item.time,
        ) {
            return k;
        }
        if is_verdict_on(item.content, place) {
            return k + 1;
        }
    }
    end
}

/// The first place at which the request at `place` is decided, and the number of items where it is undecided at each. Goes through the items from the
/// request's place on.
pub fn decided_since(params: &Params, items: &KeptItems, place: u64) -> u64
    requires { IsInOrder (model_items items.now.items) }
    ensures { result ≡ decided_since params.now (model_items items.now.items) place }
{
    let start = start_of(items, place);
    decided_among(params, items, place, time_at(items, place), start)
}

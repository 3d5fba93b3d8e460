//! Decisions that were told.
ghost use Rattle.std.specs.Prelude.{◌≡◌, ◌≤◌, drop, length, option_copied};
ghost use Rattle.canton_model.specs.Inbox.{moments, verdict_in};
ghost use Rattle.canton_model.specs.Timeline.{decision_on, verdict_on};
ghost use Rattle.inbox_registry.specs.Order.{VerdictsBehind};
ghost use Rattle.node_inbox.specs.Items.{model_content, model_items};

use crate::kept_item::KeptContent;
use crate::kept_items::KeptItems;
use canton_model::Decision;

fn decision_in(content: &KeptContent, request: u64) -> Option<&Decision>
    ensures { option_copied result ≡ decision_on request (verdict_in (model_content content.now)) }
{
    match content {
        KeptContent::Told(verdict) => {
            if verdict.request == request {
                Some(&verdict.decision)
            } else {
                None
            }
        }
        KeptContent::Received(_) => None,
        KeptContent::Nothing => None,
    }
}

fn decision_among(items: &KeptItems, request: u64, start: u64) -> Option<&Decision>
    requires { start ≤ length items.now.items }
    ensures { option_copied result ≡ verdict_on request (moments (model_items (drop start items.now.items))) }
{
    let end = items.len();
    'items: for k in start..end {
        let item = items.item(k);
        if let Some(decision) = decision_in(item.content, request) {
            return Some(decision);
        }
    }
    None
}

fn start_of(items: &KeptItems, place: u64) -> u64
    ensures within { result ≤ length items.now.items }
    ensures rest { drop result items.now.items ≡ drop place items.now.items }
{
    if place < items.len() {
        place
    } else {
        items.len()
    }
}

/// The decision of the verdict on the request at a place, and none where no verdict on it came. Goes through the items from that place up to the verdict.
pub fn decision_at(items: &KeptItems, place: u64) -> Option<&Decision>
    requires behind { VerdictsBehind 0 (model_items items.now.items) }
    ensures { option_copied result ≡ verdict_on place (moments (model_items items.now.items)) }
{
    decision_among(items, place, start_of(items, place))
}

//! Items by their places.
ghost use Rattle.std.specs.Prelude.{◌≡◌, ◌≤◌, length, option_copied, slice_get, take};
ghost use Rattle.canton_model.specs.Inbox.{item_time, last_time};
ghost use Rattle.node_inbox.specs.Items.{model_items};
ghost use Rattle.node_inbox.specs.Kept.{kept_at, request_in};

use crate::kept_item::{KeptContent, KeptRequest};
use crate::kept_items::KeptItems;

fn request_in(content: &KeptContent) -> Option<&KeptRequest>
    ensures { option_copied result ≡ request_in content.now }
{
    match content {
        KeptContent::Received(kept) => Some(kept.request()),
        KeptContent::Told(_) => None,
        KeptContent::Nothing => None,
    }
}

/// The request that was received at a place, and none where none was.
pub fn request_at(items: &KeptItems, place: u64) -> Option<&KeptRequest>
    ensures { option_copied result ≡ kept_at items.now.items place }
{
    match items.content(place) {
        Some(content) => request_in(content),
        None => None,
    }
}

/// The time of the item at a place, in microseconds, and 0 where there is no item.
pub fn time_at(items: &KeptItems, place: u64) -> u64
    ensures { result ≡ item_time (slice_get (model_items items.now.items) place) }
{
    items.time(place)
}

/// The time of the item before a place, in microseconds, and 0 where there is no item before it.
pub fn time_before(items: &KeptItems, place: u64) -> u64
    requires { place ≤ length items.now.items }
    ensures { result ≡ last_time (take place (model_items items.now.items)) }
{
    if place == 0 {
        return 0;
    }
    time_at(items, place - 1)
}

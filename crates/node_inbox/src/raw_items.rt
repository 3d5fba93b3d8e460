//! The items of an inbox, apart from it.
ghost use Rattle.std.specs.Prelude.{◌≡◌, ◌++◌, ◌∷◌, ◌≤◌, [], drop, length, IfOk, OnOk};
ghost use Rattle.node_inbox.specs.Raw.{raw_item, raw_items, raw_what};
ghost use Rattle.node_inbox.specs.declared.kept_item.KeptContent.TheVariants as Content;

use crate::coming::shared;
use crate::item_ref::ItemRef;
use crate::kept_item::{KeptContent, KeptRequest};
use crate::kept_items::KeptItems;
use ledger_terms::Exact;
use node_state::{Item, ItemList, ItemWhat};
use std::alloc::{AllocError, Global};

fn raw_request(kept: &KeptRequest) -> Result<ItemWhat, AllocError>
    ensures { IfOk result (λ what. what ≡ raw_what (Content.Received kept.now)) }
{
    let seen = kept.seen.copied()?;
    let confirmed = kept.confirmed.copied()?;
    let envelope = shared(kept.envelope.as_ref())?;
    Ok(ItemWhat::Request {
        sender: kept.sender,
        command: kept.command,
        root: kept.root,
        seen,
        confirmed,
        envelope,
    })
}

fn raw_what(content: &KeptContent) -> Result<ItemWhat, AllocError>
    ensures { IfOk result (λ what. what ≡ raw_what content.now) }
{
    match content {
        KeptContent::Received(kept) => raw_request(kept.request()),
        KeptContent::Told(verdict) => {
            let verdict = verdict.clone()?;
            Ok(ItemWhat::Verdict(verdict))
        }
        KeptContent::Nothing => Ok(ItemWhat::Nothing),
    }
}

fn push_raw(item: ItemRef<'_>, raw: &mut ItemList) -> Result<(), AllocError>
    ensures { OnOk result (raw.new ≡ raw.old ++ raw_item item.entry ∷ []) }
{
    let what = raw_what(item.content)?;
    raw.push(Item {
        time: item.time,
        what,
    })
}

/// The items from the place `from` on, as a state has them. Envelopes aren't copied.
pub fn raw_items(alloc: Global, items: &KeptItems, from: u64) -> Result<ItemList, AllocError>
    requires { from ≤ length items.now.items }
    ensures { IfOk result (λ raw. raw ≡ drop from (raw_items items.now.items)) }
{
    let mut raw = ItemList::new(alloc);
    let end = items.len();
    'places: for place in from..end {
        push_raw(items.item(place), &mut raw)?;
    }
    Ok(raw)
}

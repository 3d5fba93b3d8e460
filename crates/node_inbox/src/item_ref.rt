//! An item that somebody else keeps.
use crate::kept_item::KeptContent;
use std::marker::Model;

/// What a participant has of one entry of the log, kept elsewhere. Contracts see the item.
#[derive(Drop)]
pub struct ItemRef<'i> {
    pub time: u64,
    pub content: &'i KeptContent,
}

impl<'i> Model for ItemRef<'i> {
    ghost use Rattle.node_inbox.specs.declared.kept_item.KeptItem.{KeptItem};

    ghost Value = { KeptItem };

    ghost use Rattle.ledger_terms.specs.Forest.{coded_forest};
    ghost use Rattle.std.specs.Coded.{codes};
    ghost use Rattle.view_split.specs.Holed.{coded_holed};

    ghost coded = { Prim.hlevel (codes, coded_forest, coded_holed) };

    ghost view = { λ i. record { time = i.time; content = i.content.now } };
}

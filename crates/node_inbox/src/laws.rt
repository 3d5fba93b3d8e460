//! Laws of an inbox, each the contract of a function with nothing to do.
ghost use Rattle.std.specs.Prelude.{◌≡◌, ◌++◌, ◌∷◌, [], List};
ghost use Rattle.ledger_model.specs.Terms.{ParticipantId};
ghost use Rattle.canton_model.specs.declared.entry.Entry.{Entry};
ghost use Rattle.canton_model.specs.Reading.{Reading};
ghost use Rattle.canton_model.specs.Inbox.{Item, inbox};
ghost use Rattle.node_inbox.specs.Entries.{item_from};

/// What an entry is to a participant can be told from the participant's own inbox: where `items` are its inbox of a log, these and the item that
/// `item_from` makes of one more entry are its inbox of the log with that entry.
pub fn inbox_reads()
    ensures { (reading : Reading) (p : ParticipantId) (items : List Item) (before : List Entry) (entry : Entry) → items ≡ inbox reading p before
        → items ++ item_from reading p items entry ∷ [] ≡ inbox reading p (before ++ entry ∷ []) }
{}

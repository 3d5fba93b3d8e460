//! What is decided.
ghost use Rattle.std.specs.Prelude.{◌≡◌};

use node_inbox::Inbox;

/// Tells which requests are decided, over what was read, so that duties needn't know the inbox.
pub trait Decisions {
    ghost use Rattle.std.specs.Prelude.{ℕ, Bool};

    ghost decided: { Self → ℕ → Bool };

    /// Whether the request at a place is decided.
    fn has_decided(&self, place: u64) -> bool
        ensures { result ≡ decided self.now place };
}

/// An inbox tells it by the items that it has.
impl Decisions for Inbox<'_> {
    ghost use Rattle.node_inbox.specs.InboxState.{params_of};
    ghost use Rattle.node_core.specs.Participant.{is_received_decided};

    ghost decided = { λ i. is_received_decided (params_of i) i.items };

    fn has_decided(&self, place: u64) -> bool {
        self.is_decided(place)
    }
}

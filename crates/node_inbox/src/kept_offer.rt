//! What envelopes offer.
ghost use Rattle.std.specs.Prelude.{◌≡◌, IfOk};
ghost use Rattle.node_inbox.specs.JobInput.{shown_for};
ghost use Rattle.node_inbox.specs.Offers.{as_offered};

use blind_tree::OpenedFor;
use confirm_reply::{Reason, SharedTree, Shown};
use std::alloc::{AllocError, Global};

/// What the envelope of a request offers its recipient. `Mismatch`: it is there, and isn't a tree of the request. `Missing`: it isn't
/// there, or lacks something of what the participant sees. `Open`: it is complete, and this is what the participant sees.
#[derive(Drop)]
pub enum KeptOffer {
    Mismatch,
    Missing,
    Open(SharedTree),
}

impl KeptOffer {
    /// Keeps what the bytes of an envelope offer, so that an opened tree can be shared with checks.
    pub fn of(alloc: Global, offered: OpenedFor) -> Result<KeptOffer, AllocError>
        ensures { IfOk result (λ kept. as_offered kept ≡ offered) }
    {
        match offered {
            OpenedFor::Mismatch => Ok(KeptOffer::Mismatch),
            OpenedFor::Missing => Ok(KeptOffer::Missing),
            OpenedFor::Open(tree) => {
                let tree = SharedTree::new(alloc, tree)?;
                Ok(KeptOffer::Open(tree))
            }
        }
    }

    /// What is shown to the check of the request: the opened tree, shared and not copied, or the one reason for which each view is rejected.
    pub fn shown(&self) -> Result<Shown, AllocError>
        ensures { IfOk result (λ shown. shown ≡ shown_for self.now) }
    {
        match self {
            KeptOffer::Mismatch => Ok(Shown::Fixed(Reason::RootMismatch)),
            KeptOffer::Missing => Ok(Shown::Fixed(Reason::ViewMissing)),
            KeptOffer::Open(tree) => {
                let tree = tree.shared()?;
                Ok(Shown::Open(tree))
            }
        }
    }
}

//! What an inbox kept.
use crate::approved_places::ApprovedPlaces;
use crate::kept_active::KeptActive;
use crate::kept_items::KeptItems;
use inbox_registry::Registry;
use prepare_request::HostedIds;

/// What an inbox kept, when nobody asks it any more. It borrows nothing, so it is dropped, or forgotten, when whoever has it says.
#[derive(Drop)]
pub struct InboxRemains {
    items: KeptItems,
    registry: Registry,
    hosted: HostedIds,
    approved: ApprovedPlaces,
    active: Option<KeptActive>,
}

impl InboxRemains {
    /// Puts together what an inbox kept, of its parts.
    pub(crate) fn new(
        items: KeptItems,
        registry: Registry,
        hosted: HostedIds,
        approved: ApprovedPlaces,
        active: Option<KeptActive>,
    ) -> InboxRemains {
        InboxRemains {
            items,
            registry,
            hosted,
            approved,
            active,
        }
    }
}

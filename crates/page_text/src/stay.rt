//! How long something is so.

/// The places at which a part of the page is seen: those from `from` to `to`, both of them.
#[derive(Clone, Copy)]
pub(crate) struct Stay {
    pub from: u64,
    pub to: u64,
}

impl Stay {
    /// Whether the part is seen at this place.
    pub fn has(self, place: u64) -> bool {
        self.from <= place && place <= self.to
    }
}

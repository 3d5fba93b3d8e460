//! What an id leads to.

/// The place of the contract's row, and of the last hold on it that was not released.
#[derive(Clone, Copy)]
pub struct ContractPlaces {
    pub row: Option<usize>,
    pub hold: Option<usize>,
}

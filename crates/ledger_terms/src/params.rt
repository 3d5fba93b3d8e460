//! The times of a synchroniser.

/// The times that a synchroniser is made with, in microseconds: how long confirming participants have to respond, how long
/// the mediator has after that, and by how much ledger time and the time of an entry may differ.
#[derive(Clone, Copy, PartialEq, Eq)]
pub struct Params {
    pub response_timeout: u64,
    pub reaction_timeout: u64,
    pub skew: u64,
}

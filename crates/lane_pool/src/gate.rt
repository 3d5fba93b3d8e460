//! What a turn passes.

/// What a turn passes before each view that it checks, outside every lock. An implementation may wait. Where threads share
/// one, the bound is `Gate + Sync`.
pub trait Gate {
    /// Passes the gate before the view with the index `view`, from 0, of the request at `place`.
    fn enter(&self, place: u64, view: u32);
}

/// The gate that lets everyone in at once.
#[derive(Clone, Copy, Drop)]
pub struct FreeGate;

impl Gate for FreeGate {
    fn enter(&self, _place: u64, _view: u32) {}
}

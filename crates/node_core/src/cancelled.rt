//! Jobs that come too late.

/// A job whose request, at `place`, is decided. `decided_at` is the least place at which it is: where a verdict decided it, the place behind
/// that verdict.
#[derive(Clone, Copy)]
pub struct Cancelled {
    pub place: u64,
    pub decided_at: u64,
}

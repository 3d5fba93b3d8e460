//! What a run stands on.

/// What the system gives a run: the runtime, which starts threads and waits, and the gate that lanes pass before each view that they
/// check.
#[derive(Clone, Copy)]
pub struct Platform<'a, R, G> {
    pub rt: &'a R,
    pub gate: &'a G,
}

//! What a round's work is done with.
use std::alloc::Global;

/// What a round's work is done with: the runtime, which starts threads and waits; the gate that is passed before each view;
/// what is allocated from; and how many lanes there are beside the clients.
#[derive(Clone, Copy)]
pub struct Workers<'a, R, G> {
    pub rt: &'a R,
    pub gate: &'a G,
    pub alloc: Global,
    pub count: u32,
}

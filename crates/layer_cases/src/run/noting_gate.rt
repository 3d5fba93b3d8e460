//! A gate that notes who comes to it.
use lane_pool::Gate;
use std::sync::atomic::{AtomicU64, Ordering};

/// The place of the request and the number of the view with which somebody came to the gate.
#[derive(Drop)]
pub(crate) struct Visit {
    place: AtomicU64,
    view: AtomicU64,
}

impl Visit {
    fn none() -> Visit {
        Visit {
            place: AtomicU64::new(0),
            view: AtomicU64::new(0),
        }
    }

    fn note(&self, place: u64, view: u32) {
        self.place.store(place, Ordering::SeqCst);
        self.view.store(view as u64, Ordering::SeqCst);
    }

    pub(crate) fn place(&self) -> u64 {
        self.place.load(Ordering::SeqCst)
    }

    pub(crate) fn view(&self) -> u64 {
        self.view.load(Ordering::SeqCst)
    }
}

/// A gate that notes how many came to it, and with what the first and the last of them. It holds who comes first until somebody else has
/// come, for so many looks at most, and notes whether they met.
#[derive(Drop)]
pub(crate) struct NotingGate {
    looks: u32,
    came: AtomicU64,
    met: AtomicU64,
    pub(crate) first: Visit,
    pub(crate) last: Visit,
}

impl NotingGate {
    pub(crate) fn new(looks: u32) -> NotingGate {
        NotingGate {
            looks,
            came: AtomicU64::new(0),
            met: AtomicU64::new(0),
            first: Visit::none(),
            last: Visit::none(),
        }
    }

    /// How many came to the gate so far.
    pub(crate) fn came(&self) -> u64 {
        self.came.load(Ordering::SeqCst)
    }

    /// Whether somebody else came while the first was held.
    pub(crate) fn have_met(&self) -> bool {
        self.met.load(Ordering::SeqCst) == 1
    }
}

impl Gate for NotingGate {
    fn enter(&self, place: u64, view: u32) {
        self.last.note(place, view);
        if self.came.fetch_add(1, Ordering::SeqCst) != 0 {
            return;
        }
        self.first.note(place, view);
        for _ in 0..self.looks {
            if self.came() > 1 {
                self.met.store(1, Ordering::SeqCst);
                return;
            }
        }
    }
}

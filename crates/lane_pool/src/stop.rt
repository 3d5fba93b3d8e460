//! The flag that ends the turns of all lanes.
ghost use Rattle.std.specs.Prelude.{◌≡◌, ◌≢◌, true};

use std::marker::{Brand, PhantomData};
use std::sync::atomic::Ordering::SeqCst;
use std::sync::atomic::{AtomicIn, Rule};

/// Why lanes stop. A function that is generic in it is called with `Brand`, and the call picks it.
pub(crate) trait Cause: Sync {
    ghost holds: { Type 0 };
}

impl Cause for Brand {
    ghost holds = { Unit {0} };
}

/// Where the word isn't 0 the cause holds.
pub(crate) struct Told<C: Cause> {
    of: PhantomData<C>,
}

impl<C: Cause> Rule for Told<C> {
    ghost invariant = { λ n. n ≢ 0 → C.holds };
}

/// A flag that is set only where the cause holds.
#[derive(Drop)]
pub(crate) struct Stop<C: Cause> {
    word: AtomicIn<Told<C>>,
}

impl<C: Cause> Stop<C> {
    /// A flag that isn't set.
    pub(crate) fn new() -> Stop<C> {
        Stop {
            word: AtomicIn::new(0),
        }
    }

    /// Sets the flag, for all threads.
    pub(crate) fn set(&self)
        requires { C.holds }
    {
        self.word.store(1, SeqCst);
    }

    /// Whether some thread has set the flag.
    pub(crate) fn is_set(&self) -> bool
        ensures { result ≡ true → C.holds }
    {
        self.word.load(SeqCst) != 0
    }
}

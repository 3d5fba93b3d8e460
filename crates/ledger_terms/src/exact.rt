//! Exact copies.
ghost use Rattle.std.specs.Prelude.{◌≡◌, IfOk};

use std::alloc::AllocError;

/// A type whose clones are equal to what they are clones of.
pub trait Exact: Clone {
    ghost same: { (a b : Self) → Self.is_clone a b → b ≡ a };

    /// Another value that is equal. An error leaves the value as it was.
    final fn copied(&self) -> Result<Self, AllocError>
        ensures { IfOk result (λ c. c ≡ self.now) }
    {
        self.clone()
    }
}

impl Exact for u16 {
    ghost same = { λ a b h. h };
}

impl Exact for u64 {
    ghost same = { λ a b h. h };
}

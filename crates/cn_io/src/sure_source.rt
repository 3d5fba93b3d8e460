//! A source in memory that never fails.
ghost use Rattle.std.specs.Prelude.{◌≡◌, ◌++◌, Some, min, take, drop, length};

use crate::failed::Failed;
use crate::source::Source;
use ledger_terms::Bytes;
use std::marker::Model;

/// Copies the first bytes of `rest`, as many as `into` has place for and at most `most`, to the front of `into`, and gives their number.
pub(crate) fn copy_first(rest: &[u8], into: &mut [u8], most: usize) -> usize
    ensures count { result ≡ min (min (length rest.now) (length into.old)) most }
    ensures bytes { into.new ≡ take result rest.now ++ drop result into.old }
{
    let count = rest.len().min(into.len()).min(most);
    into[..count].copy_from_slice(&rest[..count]);
    count
}

/// A source over bytes that never fails, which contracts see as the bytes that are left.
#[derive(Drop)]
pub struct SureSource {
    bytes: Bytes,
    at: usize,
}

impl Model for SureSource {
    ghost use Rattle.std.specs.Prelude.{◌≤◌, List, ℕ, length, drop};

    ghost Value = { List ℕ };

    ghost view = { λ s. drop s.at s.bytes };

    ghost invariant = { λ s. s.at ≤ length s.bytes };
}

impl SureSource {
    /// A source over `bytes` that has given nothing yet.
    pub fn new(bytes: Bytes) -> SureSource
        ensures { result ≡ bytes }
    {
        SureSource { bytes, at: 0 }
    }
}

impl Source for SureSource {
    ghost left = { λ s. Some s };

    ghost faults = { λ s. 0 };

    fn take(&mut self, into: &mut [u8]) -> Result<usize, Failed> {
        let rest = &self.bytes.as_slice()[self.at..];
        let count = copy_first(rest, into, usize::MAX);
        self.at += count;
        Ok(count)
    }
}

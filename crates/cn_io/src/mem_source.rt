//! A source in memory that fails where it is told to.
ghost use Rattle.std.specs.Prelude.{◌≡◌, ◌<◌, ◌≤◌, ◌↔◌, IsTrue, IsErr, IfOk, Some, min, length};
ghost use Rattle.cn_io.specs.Faults.{counted};
ghost use Rattle.cn_io.specs.Source.{Takes};
ghost use Rattle.cn_io.specs.Memory.{is_listed};

use crate::failed::Failed;
use crate::source::Source;
use crate::sure_source::copy_first;
use ledger_terms::{Bytes, U64List};
use std::marker::Model;

/// A source over bytes, which moves at most so many a call and fails at the calls listed.
#[derive(Drop)]
pub struct MemSource {
    bytes: Bytes,
    at: usize,
    piece: usize,
    fails: U64List,
    calls: u64,
    faults: u64,
}

impl Model for MemSource {
    ghost use Rattle.std.specs.Prelude.{◌<◌, ◌≤◌, length, drop};
    ghost use Rattle.cn_io.specs.Memory.{Supply};

    ghost Value = { Supply };

    ghost view = { λ s. record {
      left = drop s.at s.bytes;
      piece = s.piece;
      fails = s.fails;
      calls = s.calls;
      faults = s.faults;
    } };

    ghost invariant = { λ s. (s.at ≤ length s.bytes) × (0 < s.piece) };
}

impl MemSource {
    /// A source over `bytes` that was not called yet. `piece` is how many bytes a call moves at most, one or more, and `fails` lists the numbers of the
    /// calls that are made to fail, of which the first is 1.
    pub fn new(bytes: Bytes, piece: usize, fails: U64List) -> MemSource
        requires { 0 < piece }
        ensures { result ≡ record { left = bytes; piece = piece; fails = fails; calls = 0; faults = 0 } }
    {
        MemSource {
            bytes,
            at: 0,
            piece,
            fails,
            calls: 0,
            faults: 0,
        }
    }
}

impl Source for MemSource {
    ghost left = { λ s. Some s.left };

    ghost faults = { λ s. s.faults };

    fn take(&mut self, into: &mut [u8]) -> Result<usize, Failed>
        requires { 0 < length into.old }
        ensures moved { Takes (Some self.old.left) (Some self.new.left) self.old.faults self.new.faults result into.new }
        ensures count { self.old.faults ≤ self.new.faults }
        ensures call { self.new.calls ≡ counted self.old.calls }
        ensures fails { IsErr result ↔ IsTrue (is_listed self.new.calls self.old.fails) }
        ensures piece { IfOk result (λ n. n ≡ min (min (length self.old.left) (length into.old)) self.old.piece) }
        ensures same { (self.new.piece ≡ self.old.piece) × (self.new.fails ≡ self.old.fails) }
    {
        self.calls = self.calls.saturating_add(1);
        if self.fails.as_slice().contains(&self.calls) {
            self.faults = self.faults.saturating_add(1);
            return Err(Failed);
        }
        let rest = &self.bytes.as_slice()[self.at..];
        let count = copy_first(rest, into, self.piece);
        self.at += count;
        Ok(count)
    }
}

//! A sink in memory that fails where it is told to. `alloc` gives the memory for its bytes.
ghost use Rattle.std.specs.Prelude.{◌≡◌, ◌<◌, ◌≤◌, [], IsTrue, IsErr, IfOk, OnOk, OnErr, Some, min, length};
ghost use Rattle.cn_io.specs.Faults.{counted};
ghost use Rattle.cn_io.specs.Sink.{Puts, TakesAll};
ghost use Rattle.cn_io.specs.Memory.{PutsPiece, is_listed};

use crate::failed::Failed;
use crate::sink::Sink;
use ledger_terms::U64List;
use std::alloc::{AllocError, Global};
use std::marker::Model;

/// A sink that takes at most so many bytes a call and fails at the calls listed, and where it finds no memory.
#[derive(Drop)]
pub struct MemSink {
    bytes: Vec<u8>,
    piece: usize,
    fails: U64List,
    calls: u64,
    faults: u64,
}

impl Model for MemSink {
    ghost use Rattle.std.specs.Prelude.{◌<◌, ◌-◌, vec_len, vec_capacity};
    ghost use Rattle.cn_io.specs.Memory.{Store};

    ghost Value = { Store };

    ghost view = { λ s. record {
      held = s.bytes.items;
      room = vec_capacity s.bytes - vec_len s.bytes;
      piece = s.piece;
      fails = s.fails;
      calls = s.calls;
      faults = s.faults;
    } };

    ghost invariant = { λ s. 0 < s.piece };
}

impl MemSink {
    /// An empty sink that was not called yet. `piece` is how many bytes a call takes at most, one or more, and `fails` lists the numbers of the calls
    /// that are made to fail, of which the first is 1.
    pub fn new(alloc: Global, piece: usize, fails: U64List) -> MemSink
        requires { 0 < piece }
        ensures { result ≡ record { held = []; room = 0; piece = piece; fails = fails; calls = 0; faults = 0 } }
    {
        MemSink {
            bytes: Vec::new(alloc),
            piece,
            fails,
            calls: 0,
            faults: 0,
        }
    }

    /// Makes room for at least `n` more bytes, which then need no memory. The error is want of memory; after it nothing has changed.
    pub fn reserve(&mut self, n: usize) -> Result<(), AllocError>
        ensures room { OnOk result (n ≤ self.new.room) }
        ensures same { self.new ≡ record self.old { room = self.new.room } }
        ensures err { OnErr result (self.new ≡ self.old) }
    {
        self.bytes.reserve(n)
    }

    /// The bytes that the sink has taken, in order.
    pub fn written(&self) -> &[u8]
        ensures { result.now ≡ self.now.held }
    {
        self.bytes.as_slice()
    }
}

impl Sink for MemSink {
    ghost held = { λ s. Some s.held };

    ghost faults = { λ s. s.faults };

    ghost room = { λ s. 0 };

    ghost may_put = { PutsPiece };

    fn put(&mut self, from: &[u8]) -> Result<usize, Failed>
        requires { 0 < length from.now }
        ensures moved { Puts (Some self.old.held) (Some self.new.held) self.old.faults self.new.faults result from.now }
        ensures count { self.old.faults ≤ self.new.faults }
        ensures sure { length from.now ≤ 0 → TakesAll self.old.faults self.new.faults 0 0 result from.now }
        ensures answer { PutsPiece self.old from.now result self.new }
        ensures call { self.new.calls ≡ counted self.old.calls }
        ensures fails { IsTrue (is_listed self.new.calls self.old.fails) → IsErr result }
        ensures only { min (length from.now) self.old.piece ≤ self.old.room → IsErr result → IsTrue (is_listed self.new.calls self.old.fails) }
        ensures piece { IfOk result (λ n. n ≡ min (length from.now) self.old.piece) }
        ensures same { (self.new.piece ≡ self.old.piece) × (self.new.fails ≡ self.old.fails) }
    {
        self.calls = self.calls.saturating_add(1);
        let count = from.len().min(self.piece);
        if !self.fails.as_slice().contains(&self.calls)
            && self.bytes.extend_from_slice(&from[..count]).is_ok()
        {
            return Ok(count);
        }
        self.faults = self.faults.saturating_add(1);
        Err(Failed)
    }
}

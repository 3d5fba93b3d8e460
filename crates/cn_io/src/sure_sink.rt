//! A sink in memory that takes its room ahead. `alloc` gives the memory for its bytes.
ghost use Rattle.std.specs.Prelude.{◌≡◌, ◌≤◌, ◌<◌, [], IsErr, OnOk, OnErr, Some, length};
ghost use Rattle.cn_io.specs.Faults.{counted};
ghost use Rattle.cn_io.specs.Memory.{PutsWhole};
ghost use Rattle.cn_io.specs.Sink.{Puts, TakesAll};

use crate::failed::Failed;
use crate::sink::Sink;
use std::alloc::{AllocError, Global};
use std::marker::Model;

/// A sink that takes its room ahead. Within its room a `put` takes all and needs no memory; past it, it fails.
#[derive(Drop)]
pub struct SureSink {
    bytes: Vec<u8>,
    faults: u64,
}

impl Model for SureSink {
    ghost use Rattle.std.specs.Prelude.{◌-◌, vec_len, vec_capacity};
    ghost use Rattle.cn_io.specs.Memory.{Roomy};

    ghost Value = { Roomy };

    ghost view = { λ s. record {
      held = s.bytes.items;
      room = vec_capacity s.bytes - vec_len s.bytes;
      faults = s.faults;
    } };
}

impl SureSink {
    /// An empty sink without room: every `put` fails until `reserve` makes some.
    pub fn new(alloc: Global) -> SureSink
        ensures { result ≡ record { held = []; room = 0; faults = 0 } }
    {
        SureSink {
            bytes: Vec::new(alloc),
            faults: 0,
        }
    }

    /// Makes room for at least `n` more bytes. The error is want of memory; after it nothing has changed.
    pub fn reserve(&mut self, n: usize) -> Result<(), AllocError>
        ensures room { OnOk result (n ≤ self.new.room) }
        ensures kept { self.old.room ≤ self.new.room }
        ensures same { self.new ≡ record self.old { room = self.new.room } }
        ensures err { OnErr result (self.new ≡ self.old) }
    {
        self.bytes.reserve(n)
    }

    /// The bytes that the sink has taken, in order.
    pub fn written(&self) -> &[u8]
        ensures { result.now ≡ self.now.held }
    {
        self.bytes.as_slice()
    }
}

impl Sink for SureSink {
    ghost held = { λ s. Some s.held };

    ghost faults = { λ s. s.faults };

    ghost room = { λ s. s.room };

    ghost may_put = { PutsWhole };

    fn put(&mut self, from: &[u8]) -> Result<usize, Failed>
        requires { 0 < length from.now }
        ensures moved { Puts (Some self.old.held) (Some self.new.held) self.old.faults self.new.faults result from.now }
        ensures count { self.old.faults ≤ self.new.faults }
        ensures sure { length from.now ≤ self.old.room
            → TakesAll self.old.faults self.new.faults self.old.room self.new.room result from.now }
        ensures answer { PutsWhole self.old from.now result self.new }
        ensures past { self.old.room < length from.now → IsErr result × (self.new ≡ record self.old { faults = counted self.old.faults }) }
    {
        let room = self.bytes.capacity() - self.bytes.len();
        if from.len() <= room && self.bytes.extend_from_slice(from).is_ok() {
            return Ok(from.len());
        }
        self.faults = self.faults.saturating_add(1);
        Err(Failed)
    }
}

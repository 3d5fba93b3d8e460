//! A writer of std as a sink.
ghost use Rattle.std.specs.Prelude.{◌≡◌};

use crate::failed::Failed;
use crate::sink::Sink;
use std::io::Write;
use std::marker::Model;

/// A writer as a sink. What the writer itself does is trusted. A write of no bytes counts as a fault.
#[derive(Drop)]
pub struct WriteSink<W: Write> {
    inner: W,
    faults: u64,
}

impl<W: Write> Model for WriteSink<W> {
    ghost use Rattle.cn_io.specs.Outside.{Counted};

    ghost Value = { Counted W };

    ghost view = { λ s. record { inner = s.inner; faults = s.faults } };
}

impl<W: Write> WriteSink<W> {
    /// A sink over the writer `inner`, with a count of faults of 0.
    pub fn new(inner: W) -> WriteSink<W>
        ensures { result ≡ record { inner = inner; faults = 0 } }
    {
        WriteSink { inner, faults: 0 }
    }
}

impl<W: Write> Sink for WriteSink<W> {
    ghost held = { λ s. W.contents s.inner };

    ghost faults = { λ s. s.faults };

    ghost room = { λ s. 0 };

    // What a writer does with a write is its own.
    ghost may_put = { λ _ _ _ _. Unit {0} };

    fn put(&mut self, from: &[u8]) -> Result<usize, Failed> {
        match self.inner.write(from) {
            Ok(count) if count > 0 => Ok(count),
            _ => {
                self.faults = self.faults.saturating_add(1);
                Err(Failed)
            }
        }
    }
}

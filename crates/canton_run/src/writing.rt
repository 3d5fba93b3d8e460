//! Writing what a job gives.
ghost use Rattle.std.specs.Prelude.{◌≡◌, ◌<◌, ◌≤◌, ℕ, length, take};
ghost use Rattle.std.proofs.Common.{◌⊎◌};
ghost use Rattle.std.specs.Io.KnownBytes.{Appends};
ghost use Rattle.cn_io.specs.Faults.{Rose};

use cn_io::{Sink, write_all};

/// Writes the bytes to the sink, and gives the status: 0 where all of them were written, and 5 where a write failed and only a beginning of them was
/// written.
pub fn write<K: Sink>(sink: &mut K, bytes: &[u8]) -> u8
    ensures status { (result ≡ 0) ⊎ (result ≡ 5) }
    ensures done { result ≡ 0 → Appends (K.held sink.old) (K.held sink.new) bytes.now }
    ensures cut { result ≡ 5 → (n : ℕ) × Appends (K.held sink.old) (K.held sink.new) (take n bytes.now) }
    ensures rose { result ≡ 5 → Rose (K.faults sink.old) (K.faults sink.new) }
    ensures sure { result ≡ 5 → K.room sink.old < length bytes.now }
    ensures count { K.faults sink.old ≤ K.faults sink.new }
{
    match write_all(sink, bytes) {
        Ok(()) => 0,
        Err(_) => 5,
    }
}

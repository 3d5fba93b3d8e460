//! Where bytes go.
ghost use Rattle.std.specs.Prelude.{ℕ, List, Option, Result, ◌≤◌, ◌<◌, length};
ghost use Rattle.cn_io.specs.Sink.{Puts, TakesAll};
ghost use Rattle.cn_io.specs.declared.failed.Failed.{Failed};

use crate::failed::Failed;

/// Where bytes go.
pub trait Sink {
    // The bytes that were taken, where the sink tells them.
    ghost held: { Self → Option (List ℕ) };

    // How many calls failed so far, a u64 that starts at 0.
    ghost faults: { Self → ℕ };

    // How many bytes it takes for sure.
    ghost room: { Self → ℕ };

    // Holds where a put of these bytes may have this answer and leave that sink.
    ghost may_put: { Self → List ℕ → Result ℕ Failed → Self → Type 0 };

    /// Takes bytes from the front of `from`, at least one, and gives their number. A refusal takes none.
    fn put(&mut self, from: &[u8]) -> Result<usize, Failed>
        requires { 0 < length from.now }
        ensures moved { Puts (held self.old) (held self.new) (faults self.old) (faults self.new) result from.now }
        ensures count { faults self.old ≤ faults self.new }
        ensures sure { length from.now ≤ room self.old
            → TakesAll (faults self.old) (faults self.new) (room self.old) (room self.new) result from.now }
        ensures answer { may_put self.old from.now result self.new };
}

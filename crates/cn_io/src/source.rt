//! Where bytes come from.
ghost use Rattle.std.specs.Prelude.{ℕ, List, Option, ◌≤◌, ◌<◌, length};
ghost use Rattle.cn_io.specs.Source.{Takes};

use crate::failed::Failed;

/// Where bytes come from.
pub trait Source {
    // The bytes that are left, where the source tells them.
    ghost left: { Self → Option (List ℕ) };

    // How many calls failed so far, a u64 that starts at 0.
    ghost faults: { Self → ℕ };

    /// Moves bytes from the front of what is left into the front of `into`, and gives their number. It is 0 only where
    /// nothing is left. A refusal moves nothing.
    fn take(&mut self, into: &mut [u8]) -> Result<usize, Failed>
        requires { 0 < length into.old }
        ensures moved { Takes (left self.old) (left self.new) (faults self.old) (faults self.new) result into.new }
        ensures count { faults self.old ≤ faults self.new };
}

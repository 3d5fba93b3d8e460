//! From bytes to a JSON value. `alloc` gives the memory for what is read; where memory is wanting, also for the place in a fault, the fault is Memory.
ghost use Rattle.std.specs.Prelude.{◌≡◌, ◌≢◌, MatchResult, Ok, Err};
ghost use Rattle.serde_json.specs.View.{view};
ghost use Rattle.json_walk.specs.Walk.{json_of};

use crate::walk_fault::WalkFault;
use serde_json::Value;
use std::alloc::Global;

/// The value that the bytes are JSON of (RFC 8259, as `serde_json` reads it); NotJson where they are no JSON in UTF-8.
pub fn read_json(alloc: Global, bytes: &[u8]) -> Result<Value, WalkFault>
    ensures { MatchResult result (λ v. json_of bytes.now ≡ Ok (view v)) (λ e. e ≢ WalkFault.Memory → json_of bytes.now ≡ Err e) }
{
    match Value::from_slice(alloc, bytes) {
        Ok(value) => Ok(value),
        Err(fault) => if fault.is_memory() {
            Err(WalkFault::Memory)
        } else {
            Err(WalkFault::NotJson)
        },
    }
}

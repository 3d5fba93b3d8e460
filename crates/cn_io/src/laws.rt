//! What follows of the definitions, as the clauses of functions that do nothing.
ghost use Rattle.std.specs.Prelude.{◌≡◌, ◌<◌, ℕ, List, Result, Ok, IsOk, length};
ghost use Rattle.cn_io.specs.Sink.{OffersAll};
ghost use Rattle.cn_io.specs.declared.failed.Failed.{Failed};

use crate::sink::Sink;

/// Suppose each `put` of a sink that takes bytes takes all that it is offered. Then bytes that were written whole (`OffersAll` with an Ok), at least
/// one, were written by a single `put`.
pub fn whole_puts_are_one<K: Sink>()
    ensures { (sink sink' : K) → (bytes : List ℕ) → (result : Result (Unit {0}) Failed)
        → ((before after : K) → (from : List ℕ) → (n : ℕ) → K.may_put before from (Ok n) after → n ≡ length from)
        → 0 < length bytes → IsOk result → OffersAll K.may_put sink sink' bytes result
        → K.may_put sink bytes (Ok (length bytes)) sink' }
{}

//! Arrays of 32 bytes, compared at once.
ghost use Rattle.std.specs.Prelude.{◌≡◌, ◌==◌};
ghost use Rattle.std.specs.Cmp.Lexicographic.{pointwise};

use std::simd::prelude::*;

/// Whether 32 bytes are those of another array. All are compared, which costs less than to look for the first that differs.
#[tactic(auto, using(crate::proofs::SameBytes::told_by_mask))]
pub(crate) fn is_same_bytes(one: &[u8; 32], other: &[u8; 32]) -> bool
    ensures { result ≡ pointwise ◌==◌ one.now other.now }
{
    let differing = u8x32::from_array(*one).simd_ne(u8x32::from_array(*other));
    differing.to_bitmask() == 0
}

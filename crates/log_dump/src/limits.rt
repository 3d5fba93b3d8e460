//! The limits of dumps.

/// The most bytes of a dump that is read.
pub const MOST_DUMP_BYTES: usize = 16_777_216;

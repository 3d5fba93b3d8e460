//! The limits of the words.

/// Digits of a number. Zeros may lead.
pub const MOST_DIGITS: usize = 20;

/// Workers beside the thread that the program has.
pub const MOST_WORKERS: u64 = 8;

/// The most contracts that a generated script creates and transfers.
pub const MOST_COUNT: u64 = 1_024;

/// The greatest seed of a generated script.
pub const MOST_SEED: u64 = u64::MAX;

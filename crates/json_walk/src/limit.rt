//! A limit of a script.

/// A limit on a count, a length, a depth or a number: the number by which faults name it, and the least and the most that
/// it lets pass.
#[derive(Clone, Copy)]
pub struct Limit {
    pub number: u8,
    pub least: u64,
    pub most: u64,
}

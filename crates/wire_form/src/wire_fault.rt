//! Why bytes can't be read.

/// Why bytes are no spelling.
#[derive(Clone, Copy, PartialEq, Eq)]
pub enum WireFault {
    /// The field that begins at this place is the first that can't be read.
    Bad { at: usize },
    /// There was no memory.
    Memory,
}

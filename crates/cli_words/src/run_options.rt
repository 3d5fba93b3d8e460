//! Options of the jobs on the source's script.

/// How many workers there are, and the room of the log in places.
#[derive(Clone, Copy, Debug, PartialEq, Eq)]
pub(crate) struct RunOptions {
    pub workers: u32,
    pub log: u64,
}

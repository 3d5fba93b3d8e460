//! Jobs.

/// What the program is asked to do: to run the script of its source and write its report, its commitments or a dump of its log; to run a
/// generated script; or to audit the dump of its source. Without workers the work is done by one thread; `log` is the room of the log in
/// places.
#[derive(Clone, Copy, Debug, PartialEq, Eq)]
pub enum Job {
    Run { workers: u32, log: u64 },
    Gen { count: u32, seed: u64, workers: u32 },
    Commitments { workers: u32, log: u64 },
    Dump { workers: u32, log: u64 },
    Audit,
}

//! What is left of a client.
use client_threads::ResultQueue;
use log_row::Slip;

/// What a client that was retired leaves: the slip of the last entry that it had seen, and the results of its submissions.
#[derive(Drop)]
pub struct Retired<'r> {
    pub last: Option<Slip<'r>>,
    pub results: ResultQueue,
}

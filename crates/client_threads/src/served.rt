//! What comes back of a client.
use crate::result_queue::ResultQueue;
use sync_shared::{Client, Session};

/// A client that has ended, with the results of its submissions, in their order.
#[derive(Drop)]
pub struct Served<'r, S: Session> {
    pub client: Client<'r, S>,
    pub results: ResultQueue,
}

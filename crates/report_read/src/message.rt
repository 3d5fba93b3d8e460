//! What an entry says.
use crate::decision::Decision;
use crate::lane::{Lane, LaneSet};

/// What an entry says. Requests are named by their places. `views` are the words of the report, paths each with a verdict, and `all_approve` tells
/// whether all of these approve.
#[derive(Clone, Copy)]
pub enum Message<'t> {
    Request {
        sender: Lane,
        command: &'t str,
        recipients: LaneSet,
    },
    Response {
        from: Lane,
        request: u64,
        views: &'t str,
        all_approve: bool,
    },
    Verdict {
        request: u64,
        decision: Decision<'t>,
    },
    Tick,
}

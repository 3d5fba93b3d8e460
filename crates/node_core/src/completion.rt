//! What became of a participant's own request.
use canton_model::Reason;
use ledger_terms::{ParticipantId, ParticipantIdList, Path};

/// What became of a request over the first `read_to` entries: nothing yet; approved; rejected, by whom, which view and why; timed
/// out, with who didn't respond by the deadline; or expired, since no verdict came by the decision time.
#[derive(Drop)]
pub enum Completion {
    NotYet {
        read_to: u64,
    },
    Approved {
        read_to: u64,
    },
    Rejected {
        read_to: u64,
        from: ParticipantId,
        view: Path,
        reason: Reason,
    },
    TimedOut {
        read_to: u64,
        missing: ParticipantIdList,
    },
    Expired {
        read_to: u64,
    },
}

//! What outcomes of requests say.
ghost use Rattle.std.specs.Prelude.{◌≡◌};
ghost use Rattle.node_inbox.specs.Decided.{is_closed, is_without_verdict};

use canton_model::Outcome;

/// Whether an outcome is that of a decided request. None, where no request was received, isn't.
pub fn is_decided(outcome: Option<Outcome>) -> bool
    ensures { result ≡ is_closed outcome }
{
    match outcome {
        Some(Outcome::Undecided) => false,
        Some(Outcome::Approved) => true,
        Some(Outcome::Rejected) => true,
        Some(Outcome::TimedOut) => true,
        Some(Outcome::Expired) => true,
        None => false,
    }
}

/// Whether an outcome is that of a received request on which no verdict came: it is undecided, or it expired. Of None, where no request was received,
/// it is false.
pub fn is_without_verdict(outcome: Option<Outcome>) -> bool
    ensures { result ≡ is_without_verdict outcome }
{
    match outcome {
        Some(Outcome::Undecided) => true,
        Some(Outcome::Approved) => false,
        Some(Outcome::Rejected) => false,
        Some(Outcome::TimedOut) => false,
        Some(Outcome::Expired) => true,
        None => false,
    }
}

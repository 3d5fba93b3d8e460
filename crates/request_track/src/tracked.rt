//! A request that is tracked.
ghost use Rattle.std.specs.Prelude.{◌≡◌};
ghost use Rattle.request_track.specs.Pairs.{is_undecided};

use canton_model::Outcome;

/// A request's decision time, and what became of it.
#[derive(Clone, Copy)]
pub struct Tracked {
    pub decision: u64,
    pub outcome: Outcome,
}

/// Whether an outcome is Undecided, that is none yet.
pub fn is_undecided(outcome: Outcome) -> bool
    ensures { result ≡ is_undecided outcome }
{
    match outcome {
        Outcome::Undecided => true,
        Outcome::Approved => false,
        Outcome::Rejected => false,
        Outcome::TimedOut => false,
        Outcome::Expired => false,
    }
}

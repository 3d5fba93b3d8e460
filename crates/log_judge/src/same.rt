//! Whether verdicts and decisions are those that are owed.
ghost use Rattle.std.specs.Prelude.{◌≡◌, Decides};

use canton_model::{Decision, LocalVerdict, Reason, ViewVerdict};
use ledger_terms::{ParticipantId, Path};

fn same_paths(a: &Path, b: &Path) -> bool
    ensures { Decides result (a.now ≡ b.now) }
{
    a.as_slice() == b.as_slice()
}

fn same_reasons(a: Reason, b: Reason) -> bool
    ensures { Decides result (a ≡ b) }
{
    a == b
}

fn same_participants(a: &[ParticipantId], b: &[ParticipantId]) -> bool
    ensures { Decides result (a.now ≡ b.now) }
{
    if a.len() != b.len() {
        return false;
    }
    for at in 0..a.len() {
        let one = a[at];
        let other = b[at];
        if one.0 != other.0 {
            return false;
        }
    }
    true
}

fn same_local(a: LocalVerdict, b: LocalVerdict) -> bool
    ensures { Decides result (a ≡ b) }
{
    a == b
}

fn same_verdict(a: &ViewVerdict, b: &ViewVerdict) -> bool
    ensures { Decides result (a.now ≡ b.now) }
{
    same_paths(&a.view, &b.view) && same_local(a.verdict, b.verdict)
}

/// Whether two lists of verdicts are the same: as long, with the same view and the same verdict at each index.
pub fn same_verdicts(a: &[ViewVerdict], b: &[ViewVerdict]) -> bool
    ensures { Decides result (a.now ≡ b.now) }
{
    if a.len() != b.len() {
        return false;
    }
    for at in 0..a.len() {
        if !same_verdict(&a[at], &b[at]) {
            return false;
        }
    }
    true
}

/// Whether two decisions are the same, with the same participant, view and reason, or the same missing participants in the same order.
pub fn same_decisions(a: &Decision, b: &Decision) -> bool
    ensures { Decides result (a.now ≡ b.now) }
{
    match a {
        Decision::Approved => match b {
            Decision::Approved => true,
            Decision::Rejected { .. } => false,
            Decision::TimedOut { .. } => false,
        },
        Decision::Rejected { from, view, reason } => match b {
            Decision::Rejected {
                from: other,
                view: path,
                reason: cause,
            } => *from == *other && same_paths(view, path) && same_reasons(*reason, *cause),
            Decision::Approved => false,
            Decision::TimedOut { .. } => false,
        },
        Decision::TimedOut { missing } => match b {
            Decision::TimedOut { missing: others } => same_participants(
                missing.as_slice(),
                others.as_slice(),
            ),
            Decision::Approved => false,
            Decision::Rejected { .. } => false,
        },
    }
}

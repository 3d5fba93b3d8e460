//! When a message is too late, or too much.
ghost use Rattle.std.specs.Prelude.{◌≡◌, ◌+◌, ◌<◌, ◌≤◌, ◌^◌, ℕ, nat_lt, slice_get};
ghost use Rattle.canton_model.specs.Log.{decision_time_of, time_of};
ghost use Rattle.log_row.specs.LogPrefix.{LogPrefix};
ghost use Rattle.world_model.specs.Sequencing as s;
ghost use Rattle.seq_log.specs.Faults.{if_full};
ghost use Rattle.seq_log.specs.Sequenced.{fault_if};
ghost use Rattle.seq_log.specs.Slips.{Holds};

use crate::fault::AppendFault;
use ledger_terms::Params;
use log_row::Slip;

// The time of an entry, and 0 where there is none.
fn entry_time(slips: &Vec<Slip<'_>>, place: u64) -> u64
    ensures { (t : LogPrefix) → Holds t slips.now.items → result ≡ time_of (slice_get t.list place) }
{
    match slips.get(place as usize) {
        Some(slip) => slip.entry().time,
        None => 0,
    }
}

/// The fault TooLate, where a message on the request at place `request` would come after that request's decision time; None where it would come in
/// time. `slips` are those of the log's entries; where none stands at the place, its time counts as 0. `last` is the time of the log's last entry.
pub fn if_late(
    slips: &Vec<Slip<'_>>,
    params: &Params,
    last: u64,
    request: u64,
) -> Option<AppendFault>
    requires { last + 1 < 2 ^ 64 }
    ensures { (t : LogPrefix) → Holds t slips.now.items → last ≡ s.last_time t.list → s.if_late params.now t.list request ≡ fault_if result }
{
    let decision = entry_time(slips, request)
        .saturating_add(params.response_timeout)
        .saturating_add(params.reaction_timeout);
    let time = last + 1;
    if decision < time {
        Some(AppendFault::TooLate { decision, time })
    } else {
        None
    }
}

/// Whether the decision time of the request at `place` lies before `time`. `slips` are those of the log's entries, and have the request's time; where
/// none stands at the place, its time counts as 0.
pub fn is_past(slips: &Vec<Slip<'_>>, params: &Params, place: u64, time: u64) -> bool
    ensures { (t : LogPrefix) → Holds t slips.now.items → result ≡ nat_lt (decision_time_of params.now t.list place) time }
{
    let decision = entry_time(slips, place)
        .saturating_add(params.response_timeout)
        .saturating_add(params.reaction_timeout);
    decision < time
}

/// The fault LogFull, where a request that needs `need` places needs more than the capacity leaves beside the `reserved` ones; None where there is
/// room.
pub fn if_full(capacity: u64, reserved: u64, need: u64) -> Option<AppendFault>
    requires { reserved ≤ capacity }
    ensures { if_full capacity reserved need ≡ fault_if result }
{
    if need > capacity - reserved {
        Some(AppendFault::LogFull { reserved, need })
    } else {
        None
    }
}

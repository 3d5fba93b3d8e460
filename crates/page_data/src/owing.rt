//! What a participant owes, by the checks that it would run.
ghost use Rattle.std.specs.Prelude.{◌≡◌, ◌<◌, ◌++◌, true, length, IfOk, OnOk};
ghost use Rattle.world_model.specs.Node.{owed_at, owes_at};
ghost use Rattle.node_inbox.specs.InboxState.{params_of, reading_of};
ghost use Rattle.validate_job.specs.Outcome.{IsOutcome};
ghost use Rattle.page_data.specs.Knowledge.{HasNoStart};
ghost use Rattle.page_data.specs.Owing.{owed_at_place, owed_below};

use crate::owed::{Owed, OwedList};
use canton_model::ViewVerdictList;
use node_inbox::Inbox;
use std::alloc::{AllocError, Global};
use validate_job::{Finished, ValidateJob};

// Checks all views of a job, one after another.
fn run_job(job: ValidateJob<'_>) -> Result<Finished, AllocError>
    requires { 0 < job.left }
    ensures { IfOk result (IsOutcome job.entry.given) }
{
    let mut job = job;
    'views: loop {
        if let Some(finished) = job.check_next()? {
            return Ok(finished);
        }
    }
}

fn checked(alloc: Global, inbox: &Inbox<'_>, place: u64) -> Result<ViewVerdictList, AllocError>
    requires whole { HasNoStart inbox.now }
    requires owes { owes_at (reading_of inbox.now) inbox.now.me inbox.now.items place ≡ true }
    ensures { IfOk result (λ verdicts. verdicts ≡ owed_at (reading_of inbox.now) (params_of inbox.now) inbox.now.me inbox.now.items place) }
{
    let job = inbox.job(alloc, place)?;
    let finished = run_job(job)?;
    Ok(finished.verdicts)
}

fn put_owed(
    alloc: Global,
    inbox: &Inbox<'_>,
    place: u64,
    all: &mut OwedList,
) -> Result<(), AllocError>
    requires { HasNoStart inbox.now }
    ensures { OnOk result (all.new ≡ all.old ++ owed_at_place inbox.now place) }
{
    if inbox.owes(place) {
        let verdicts = checked(alloc, inbox, place)?;
        all.push(Owed { place, verdicts })?;
    }
    Ok(())
}

/// The verdicts that a participant that has forgotten nothing owes to each request that it has read, decided or not, in order of place. They are found
/// by its checks. A request to which it owes none isn't listed.
pub fn owed_by(alloc: Global, inbox: &Inbox<'_>) -> Result<OwedList, AllocError>
    requires { HasNoStart inbox.now }
    ensures { IfOk result (λ all. all ≡ owed_below inbox.now (length inbox.now.items)) }
{
    let mut all = OwedList::new(alloc);
    'places: for place in 0..inbox.cursor() {
        put_owed(alloc, inbox, place, &mut all)?;
    }
    Ok(all)
}

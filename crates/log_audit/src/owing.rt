//! What a participant owes to a request, whatever it has read since.
ghost use Rattle.std.specs.Prelude.{◌≡◌, ◌<◌, true, List, length, suc, take, IfOk};
ghost use Rattle.ledger_terms.specs.declared.topology.Topology.{Topology};
ghost use Rattle.lang_eval.specs.Found.{Packages};
ghost use Rattle.canton_model.specs.Checks.{verdicts_owed};
ghost use Rattle.canton_model.specs.Inbox.{inbox};
ghost use Rattle.world_model.specs.Messages.{Entry};
ghost use Rattle.world_model.specs.Node.{owes_at};
ghost use Rattle.node_inbox.specs.InboxState.{owed_kept, params_of, reading_of};
ghost use Rattle.framed_form.specs.FramedReading.{framed_reading};
ghost use Rattle.validate_job.specs.Outcome.{IsOutcome};
ghost use Rattle.log_audit.specs.Inboxes.{HaveRead};

use canton_model::ViewVerdictList;
use ledger_terms::ParticipantId;
use node_inbox::Inbox;
use std::alloc::{AllocError, Global};
use validate_job::{Finished, ValidateJob};

// Checks all views of a job, one after another.
fn run_job(job: ValidateJob<'_>) -> Result<Finished, AllocError>
    requires { 0 < job.left }
    ensures { IfOk result (IsOutcome job.entry.given) }
{
    let mut job = job;
    'views: loop {
        if let Some(finished) = job.check_next()? {
            return Ok(finished);
        }
    }
}

fn checked(inbox: &Inbox<'_>, alloc: Global, place: u64) -> Result<ViewVerdictList, AllocError>
    requires { owes_at (reading_of inbox.now) inbox.now.me inbox.now.items place ≡ true }
    ensures { IfOk result (λ verdicts. verdicts ≡ owed_kept (reading_of inbox.now) (params_of inbox.now) inbox.now.me inbox.now.start inbox.now.items place) }
{
    let job = inbox.job(alloc, place)?;
    let finished = run_job(job)?;
    Ok(finished.verdicts)
}

// The verdicts that the participant owes to the request at a place.
fn owed_by(inbox: &Inbox<'_>, alloc: Global, place: u64) -> Result<ViewVerdictList, AllocError>
    ensures { IfOk result (λ verdicts. verdicts ≡ owed_kept (reading_of inbox.now) (params_of inbox.now) inbox.now.me inbox.now.start inbox.now.items place) }
{
    if inbox.owes(place) {
        checked(inbox, alloc, place)
    } else {
        Ok(ViewVerdictList::new(alloc))
    }
}

/// The verdicts that a response of participant p to the request at a place has to hold, by the inboxes of all participants. There is none where
/// p owes none there.
pub(crate) fn owed(
    inboxes: &Vec<Inbox<'_>>,
    alloc: Global,
    p: ParticipantId,
    place: u64,
) -> Result<ViewVerdictList, AllocError>
    requires { p < length inboxes.now.items }
    ensures { IfOk result (λ verdicts. (topology : Topology) (packages : Packages) (log : List Entry)
        → HaveRead topology packages inboxes.now.items log
        → verdicts ≡ verdicts_owed (framed_reading topology packages) topology.params p
        (inbox (framed_reading topology packages) p (take (suc place) log)) place) }
{
    owed_by(&inboxes[p.0 as usize], alloc, place)
}

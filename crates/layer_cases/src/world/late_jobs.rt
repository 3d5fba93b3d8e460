//! Jobs that are claimed, put back and claimed again, while their participant reads on.
ghost use Rattle.std.specs.Prelude.{◌≡◌, ◌<◌, true, length, IfOk, IfSome};
ghost use Rattle.ledger_model.specs.Terms.{ParticipantId};
ghost use Rattle.canton_model.specs.Inbox.{notice_at};
ghost use Rattle.world_model.specs.Machine.{Machine};
ghost use Rattle.validate_job.specs.Outcome.{IsOutcome};
ghost use Rattle.validate_job.specs.Owed.{owed_on_each};
ghost use Rattle.seq_log.specs.Sequenced.{Sequenced};
ghost use Rattle.node_core.specs.Participant.{items_of, owed_there, owes_there};
ghost use Rattle.world_play.specs.Parts.{IsParticipant};

use node_core::Node;
use seq_log::Sequencer;
use std::alloc::{AllocError, Global};
use validate_job::{Finished, ValidateJob};

/// The job that the participant claims next. None: it has none to claim.
pub(crate) fn claimed<'s>(
    alloc: Global,
    node: &mut Node<'s>,
) -> Result<Option<ValidateJob<'s>>, AllocError>
    ensures stands { (m : Machine) (p : ParticipantId) (log : Sequenced) → IsParticipant m p node.old log → IsParticipant m p node.new log }
    ensures left { IfOk result (λ o. IfSome o (λ job. 0 < job.left)) }
    ensures read { IfOk result (λ o. IfSome o (λ job. job.given.place < length (items_of node.new))) }
    ensures owes { IfOk result (λ o. IfSome o (λ job. owes_there node.new job.given.place ≡ true)) }
    ensures verdicts { IfOk result (λ o. IfSome o (λ job. owed_on_each job.given.input job.given.views ≡ owed_there node.new job.given.place)) }
{
    node.claim_job(alloc)
}

/// Puts back the job of a request that the participant owes verdicts to, so that it can be claimed again.
pub(crate) fn give_up(node: &mut Node<'_>, place: u64)
    requires { owes_there node.old place ≡ true }
    ensures { (m : Machine) (p : ParticipantId) (log : Sequenced) → IsParticipant m p node.old log → IsParticipant m p node.new log }
{
    node.put_back(place);
}

/// Finds all verdicts of a job.
pub(crate) fn finished(job: ValidateJob<'_>) -> Result<Finished, AllocError>
    requires { 0 < job.left }
    ensures { IfOk result (IsOutcome job.entry.given) }
{
    let mut job = job;
    'views: loop {
        if let Some(finished) = job.check_next()? {
            return Ok(finished);
        }
    }
}

/// The participant reads the entry at its cursor, where one stands there. What it owes to what it has read stays as it is.
pub(crate) fn read_on(node: &mut Node<'_>, sequencer: &mut Sequencer<'_>) -> Result<(), AllocError>
    requires { (m : Machine) × (p : ParticipantId) × IsParticipant m p node.old sequencer.old }
    ensures verdicts { (k : _) → k < length (items_of node.old) → owed_there node.new k ≡ owed_there node.old k }
    ensures received { (k : _) → k < length (items_of node.old) → notice_at (items_of node.new) k ≡ notice_at (items_of node.old) k }
{
    match sequencer.entry(node.cursor()) {
        Some(slip) => node.read(&slip),
        None => Ok(()),
    }
}

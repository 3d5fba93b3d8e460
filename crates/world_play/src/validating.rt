//! How a participant checks what it owes verdicts to.
ghost use Rattle.std.specs.Prelude.{◌≡◌, ◌<◌, List, length, IfOk, OnOk};
ghost use Rattle.canton_model.specs.Inbox.{Item};
ghost use Rattle.ledger_model.specs.Terms.{ParticipantId};
ghost use Rattle.world_model.specs.Machine.{Machine};
ghost use Rattle.world_model.specs.Messages.{Entry};
ghost use Rattle.world_model.specs.Lawful.{NodeHas};
ghost use Rattle.world_model.specs.Turns.{validate_below};
ghost use Rattle.node_core.specs.OverLog.{HasInbox};
ghost use Rattle.node_core.specs.Participant.{reading_of, whole_state, with_state};
ghost use Rattle.validate_job.specs.Outcome.{IsOutcome};
ghost use Rattle.node_core.specs.Machines.{IsNodeOf};

use lang_eval::NativeList;
use node_core::Node;
use std::alloc::{AllocError, Global};
use validate_job::{Finished, ValidateJob};

/// Checks all views of a job, of which at least one is left to check, one after another, and gives its place with the verdicts on them. A choice that
/// `natives` has is asked of them in place of the language. An Err is want of memory.
pub fn run_job(natives: &NativeList, job: ValidateJob<'_>) -> Result<Finished, AllocError>
    requires { 0 < job.left }
    ensures { IfOk result (IsOutcome job.entry.given) }
{
    let mut job = job;
    'views: loop {
        if let Some(finished) = job.check_next_by(natives)? {
            return Ok(finished);
        }
    }
}

/// A participant claims and finishes its jobs, one after another, until none can be claimed. The responses wait in its outbox then. After want of memory
/// a job may be left claimed.
pub fn validate_all<'r>(
    alloc: Global,
    natives: &'r NativeList,
    node: &mut Node<'r>,
) -> Result<(), AllocError>
    ensures same { node.new ≡ with_state node.old node.new.state }
    ensures items { (node.new.state).items ≡ (node.old.state).items }
    ensures inbox { (whole : List Item) → HasInbox whole node.old → HasInbox whole node.new }
    ensures has { (m : Machine) (p : ParticipantId) (read : List Entry) (whole : List Item) → IsNodeOf m p node.old → HasInbox whole node.old
        → NodeHas m p read (whole_state node.old whole) → NodeHas m p read (whole_state node.new whole) }
    ensures ok { OnOk result ((whole : List Item) → HasInbox whole node.old → whole_state node.new whole
        ≡ validate_below (reading_of node.old) (node.old.topology).params node.old.me (whole_state node.old whole) (length whole)) }
{
    'jobs: while let Some(job) = node.claim_job(alloc)? {
        let finished = run_job(natives, job)?;
        // nothing was read since the claim, so its request isn't decided
        let _ = node.finish_job(finished);
    }
    Ok(())
}

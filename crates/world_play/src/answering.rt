//! What comes of a submission at its participant.
ghost use Rattle.std.specs.Prelude.{◌≡◌, ℕ, false, IfOk};
ghost use Rattle.ledger_model.specs.Terms.{ParticipantId};
ghost use Rattle.world_model.specs.Messages.{RequestMessage};
ghost use Rattle.world_model.specs.Machine.{Machine};
ghost use Rattle.world_model.specs.Locks.{SequencerBehind};
ghost use Rattle.world_model.specs.Places.{has_place};
ghost use Rattle.world_model.specs.Plain.{HandedIn};
ghost use Rattle.world_model.specs.Rounds.{Round};
ghost use Rattle.world_model.specs.Sequencing.{append_fault};
ghost use Rattle.seq_log.specs.Sequenced.{IsFor};
ghost use Rattle.node_core.specs.Participant.{with_state};
ghost use Rattle.world_play.specs.Answering.{AnswersAwake, CanAnswer, IsAnswer};
ghost use Rattle.world_play.specs.Results.{IsPlaced, IsPlainResult, result_of};
ghost use Rattle.world_play.specs.Parts.{GoesOn, IsParticipant};

use crate::reading::read_to_end;
use canton_model::{Message, Request};
use lang_eval::NativeList;
use ledger_terms::Submission;
use node_core::{Node, SubmitFault, SubmitResult};
use prepare_request::laws::faults_have_causes;
use seq_log::{AppendFault, AppendRefusal, Sequencer};
use std::alloc::AllocError;

// Hands in the request of a participant that has read all of the log, and what comes of that.
fn send(sequencer: &mut Sequencer<'_>, request: Request) -> Result<SubmitResult, AllocError>
    ensures on { GoesOn sequencer.old sequencer.new }
    ensures plain { IfOk result IsPlainResult }
    ensures placed { IfOk result (IsPlaced sequencer.new.list) }
    ensures handed_in { IfOk result (λ answer. (m : Machine) (now : ℕ) → IsFor m sequencer.old
        → HandedIn now sequencer.old.list request (append_fault m sequencer.old.list (RequestMessage request)) (result_of answer) sequencer.new.list) }
    ensures behind { (m : Machine) → IsFor m sequencer.old → SequencerBehind m sequencer.old.list → SequencerBehind m sequencer.new.list }
{
    let read_to = sequencer.len();
    match sequencer.append(Message::Request(request), 0) {
        Ok(_) => Ok(SubmitResult::Sent {
            place: read_to,
            read_to,
        }),
        Err(AppendRefusal { fault, .. }) => match fault {
            AppendFault::Already { place } => Ok(SubmitResult::Refused {
                fault: SubmitFault::Duplicate { place },
                read_to,
            }),
            AppendFault::LogFull { reserved, need } => Ok(SubmitResult::Refused {
                fault: SubmitFault::LogFull { reserved, need },
                read_to,
            }),
            // no request comes too late, and what a participant prepares is framed
            AppendFault::Unframed | AppendFault::TooLate { .. } | AppendFault::Memory => {
                Err(AllocError)
            }
        },
    }
}

// The participant isn't paused. It reads to the end and hands in the request that the submission wants, where it wants one.
fn answer_awake(
    natives: &NativeList,
    node: &mut Node<'_>,
    sequencer: &mut Sequencer<'_>,
    what: &Submission,
    now: u64,
) -> Result<SubmitResult, AllocError>
    requires can { (m : Machine) × CanAnswer m node.old what.now sequencer.old }
    requires awake { node.old.state.is_paused ≡ false }
    ensures on { GoesOn sequencer.old sequencer.new }
    ensures same { node.new ≡ with_state node.old node.new.state }
    ensures flag { node.new.state.is_paused ≡ node.old.state.is_paused }
    ensures keeps { (m : Machine) (p : ParticipantId) → IsParticipant m p node.old sequencer.old → IsParticipant m p node.new sequencer.new }
    ensures plain { IfOk result IsPlainResult }
    ensures placed { IfOk result (IsPlaced sequencer.new.list) }
    ensures answers { IfOk result (λ answer. (m : Machine) → IsParticipant m what.now.participant node.old sequencer.old
        → AnswersAwake m node.old.topology node.old.packages now sequencer.old.list what.now answer sequencer.new.list) }
{
    // the prover learns from this call that each fault has a cause in the submission
    faults_have_causes();
    read_to_end(node, sequencer)?;
    match node.prepare(natives, what, now) {
        Ok(request) => send(sequencer, request),
        Err(SubmitFault::Memory) => Err(AllocError),
        Err(fault) => Ok(SubmitResult::Refused {
            fault,
            read_to: node.cursor(),
        }),
    }
}

/// The participant of a submission answers it. Where it isn't paused, it reads to the end of the log and hands in the request that the submission wants,
/// if it wants one. `now` is the time of the round in microseconds. The result has the place of the request that was sent, or why none was. After want of
/// memory the participant may have read some of the log.
pub fn answer(
    natives: &NativeList,
    node: &mut Node<'_>,
    sequencer: &mut Sequencer<'_>,
    what: &Submission,
    now: u64,
) -> Result<SubmitResult, AllocError>
    requires { (m : Machine) × CanAnswer m node.old what.now sequencer.old }
    ensures on { GoesOn sequencer.old sequencer.new }
    ensures same { node.new ≡ with_state node.old node.new.state }
    ensures flag { node.new.state.is_paused ≡ node.old.state.is_paused }
    ensures keeps { (m : Machine) (p : ParticipantId) → IsParticipant m p node.old sequencer.old → IsParticipant m p node.new sequencer.new }
    ensures plain { IfOk result IsPlainResult }
    ensures placed { IfOk result (IsPlaced sequencer.new.list) }
    ensures answers { IfOk result (λ answer. (m : Machine) (round : Round) → IsParticipant m what.now.participant node.old sequencer.old
        → node.old.state.is_paused ≡ has_place round.paused what.now.participant
        → IsAnswer m node.old.topology node.old.packages now round sequencer.old.list what.now answer sequencer.new.list) }
{
    if node.paused() {
        return Ok(SubmitResult::Refused {
            fault: SubmitFault::Paused,
            read_to: node.cursor(),
        });
    }
    answer_awake(natives, node, sequencer, what, now)
}

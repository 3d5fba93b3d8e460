//! What comes of a round's submissions.
ghost use Rattle.std.specs.Prelude.{◌≡◌, ◌⊎◌, ◌<◌, ◌++◌, ℕ, All, List, length, IfOk, OnOk};
ghost use Rattle.ledger_terms.specs.declared.submission.Submission.{Submission};
ghost use Rattle.ledger_terms.specs.declared.topology.Topology.{Topology};
ghost use Rattle.ledger_model.specs.Terms.{ParticipantId};
ghost use Rattle.lang_eval.specs.Found.{Packages};
ghost use Rattle.world_model.specs.Machine.{Machine};
ghost use Rattle.world_model.specs.Mediator.{MediatorState};
ghost use Rattle.world_model.specs.Lawful.{Lawful};
ghost use Rattle.world_model.specs.Rounds.{Round};
ghost use Rattle.world_model.specs.Plain.{Submitted};
ghost use Rattle.node_core.specs.declared.submit_result.SubmitResult.{SubmitResult};
ghost use Rattle.node_core.specs.Bases.{AreBases, Bases};
ghost use Rattle.world_play.specs.Answering.{IsAnswer};
ghost use Rattle.world_play.specs.Flags.{ArePaused};
ghost use Rattle.node_core.specs.Machines.{why_of};
ghost use Rattle.world_play.specs.Results.{IsPlaced, IsPlainResult, results_of};
ghost use Rattle.world_play.specs.Submitted.{IsAnsweredBy, IsOutOfMemory, IsSlipOf};
ghost use Rattle.world_play.specs.Parts.{GoesOn};
ghost use Rattle.world_play.specs.Submitting.{AreSetUp, CanSubmit};
ghost use Rattle.world_play.specs.WorldOf.{IsWorldOf, world_of};
ghost use Rattle.world_play.specs.Worlds.{AreNodesOf, world_with};

use crate::answering::answer;
use crate::world::{NodeList, World};
use lang_eval::NativeList;
use ledger_terms::{Submission, SubmissionList};
use log_row::Slip;
use node_core::{Node, SubmitFault, SubmitRefusal, SubmitResult, SubmitResultList};
use seq_log::Sequencer;
use std::alloc::AllocError;

// What its participant answers to a submission.
fn answer_slice(
    natives: &NativeList,
    nodes: &mut [Node<'_>],
    sequencer: &mut Sequencer<'_>,
    what: &Submission,
    now: u64,
) -> Result<SubmitResult, AllocError>
    requires lawful { (m : Machine) × (time : ℕ) × (state : MediatorState) × AreNodesOf m nodes.old sequencer.old
        × Lawful m (world_with time state nodes.old sequencer.old) }
    requires within { (topology : Topology) × (packages : Packages) × AreSetUp topology packages nodes.old × CanSubmit topology packages what.now }
    requires there { what.now.participant < length nodes.old }
    ensures on { GoesOn sequencer.old sequencer.new }
    ensures nodes { (m : Machine) → AreNodesOf m nodes.old sequencer.old → AreNodesOf m nodes.new sequencer.new }
    ensures lawful { (m : Machine) (time : ℕ) (state : MediatorState) → AreNodesOf m nodes.old sequencer.old
        → Lawful m (world_with time state nodes.old sequencer.old) → Lawful m (world_with time state nodes.new sequencer.new) }
    ensures set_up { (topology : Topology) (packages : Packages) → AreSetUp topology packages nodes.old → AreSetUp topology packages nodes.new }
    ensures bases { (bases : Bases) → AreBases bases nodes.old → AreBases bases nodes.new }
    ensures paused { (paused : List ParticipantId) → ArePaused paused nodes.old → ArePaused paused nodes.new }
    ensures plain { IfOk result IsPlainResult }
    ensures placed { IfOk result (IsPlaced sequencer.new.list) }
    ensures answers { IfOk result (λ answer. (m : Machine) (time : ℕ) (state : MediatorState) (topology : Topology) (packages : Packages) (round : Round)
        → AreNodesOf m nodes.old sequencer.old → Lawful m (world_with time state nodes.old sequencer.old) → AreSetUp topology packages nodes.old
        → ArePaused round.paused nodes.old → IsAnswer m topology packages now round sequencer.old.list what.now answer sequencer.new.list) }
{
    let at = what.participant.0 as usize;
    answer(natives, &mut nodes[at], sequencer, what, now)
}

// The same of a list.
fn answer_list(
    natives: &NativeList,
    nodes: &mut NodeList<'_>,
    sequencer: &mut Sequencer<'_>,
    what: &Submission,
    now: u64,
) -> Result<SubmitResult, AllocError>
    requires lawful { (m : Machine) × (time : ℕ) × (state : MediatorState) × AreNodesOf m nodes.old.items sequencer.old
        × Lawful m (world_with time state nodes.old.items sequencer.old) }
    requires within { (topology : Topology) × (packages : Packages) × AreSetUp topology packages nodes.old.items × CanSubmit topology packages what.now }
    requires there { what.now.participant < length nodes.old.items }
    ensures on { GoesOn sequencer.old sequencer.new }
    ensures nodes { (m : Machine) → AreNodesOf m nodes.old.items sequencer.old → AreNodesOf m nodes.new.items sequencer.new }
    ensures lawful { (m : Machine) (time : ℕ) (state : MediatorState) → AreNodesOf m nodes.old.items sequencer.old
        → Lawful m (world_with time state nodes.old.items sequencer.old) → Lawful m (world_with time state nodes.new.items sequencer.new) }
    ensures set_up { (topology : Topology) (packages : Packages) → AreSetUp topology packages nodes.old.items → AreSetUp topology packages nodes.new.items }
    ensures bases { (bases : Bases) → AreBases bases nodes.old.items → AreBases bases nodes.new.items }
    ensures paused { (paused : List ParticipantId) → ArePaused paused nodes.old.items → ArePaused paused nodes.new.items }
    ensures plain { IfOk result IsPlainResult }
    ensures placed { IfOk result (IsPlaced sequencer.new.list) }
    ensures answers { IfOk result (λ answer. (m : Machine) (time : ℕ) (state : MediatorState) (topology : Topology) (packages : Packages) (round : Round)
        → AreNodesOf m nodes.old.items sequencer.old → Lawful m (world_with time state nodes.old.items sequencer.old)
        → AreSetUp topology packages nodes.old.items → ArePaused round.paused nodes.old.items
        → IsAnswer m topology packages now round sequencer.old.list what.now answer sequencer.new.list) }
{
    answer_slice(natives, nodes.as_mut_slice(), sequencer, what, now)
}

// What comes of one submission.
fn submit_one(
    natives: &NativeList,
    world: &mut World<'_>,
    what: &Submission,
) -> Result<SubmitResult, AllocError>
    requires lawful { (m : Machine) × (state : MediatorState) × IsWorldOf m state world.old × Lawful m (world_of state world.old) }
    requires within { (topology : Topology) × (packages : Packages) × AreSetUp topology packages (world.old.nodes).items
        × CanSubmit topology packages what.now }
    requires there { what.now.participant < length (world.old.nodes).items }
    ensures on { GoesOn world.old.sequencer world.new.sequencer }
    ensures now { world.new.now ≡ world.old.now }
    ensures lawful { (m : Machine) (state : MediatorState) → IsWorldOf m state world.old → Lawful m (world_of state world.old)
        → IsWorldOf m state world.new × Lawful m (world_of state world.new) }
    ensures set_up { (topology : Topology) (packages : Packages) → AreSetUp topology packages (world.old.nodes).items
        → AreSetUp topology packages (world.new.nodes).items }
    ensures bases { (bases : Bases) → AreBases bases (world.old.nodes).items
        → AreBases bases (world.new.nodes).items }
    ensures paused { (paused : List ParticipantId) → ArePaused paused (world.old.nodes).items → ArePaused paused (world.new.nodes).items }
    ensures plain { IfOk result IsPlainResult }
    ensures placed { IfOk result (IsPlaced (world.new.sequencer).list) }
    ensures answers { IfOk result (λ answer. IsAnsweredBy answer world.old what.now world.new) }
{
    answer_list(
        natives,
        &mut world.nodes,
        &mut world.sequencer,
        what,
        world.now,
    )
}

// The slip of a request that was sent, or why none was.
fn slip_of<'r>(
    sequencer: &mut Sequencer<'r>,
    answer: SubmitResult,
) -> Result<Slip<'r>, SubmitRefusal>
    requires { IsPlaced sequencer.old.list answer }
    ensures same { sequencer.new ≡ sequencer.old }
    ensures slip { IsSlipOf answer sequencer.old result }
{
    match answer {
        SubmitResult::Sent { place, .. } => Ok(sequencer.entry(place).unwrap()),
        SubmitResult::Refused { fault, read_to } => Err(SubmitRefusal { fault, read_to }),
    }
}

impl<'r> World<'r> {
    /// The participant of the submission, unless it is paused, reads to the end of the log, and hands in the request that the submission wants. The slip
    /// is that of the request, which was appended when just the entries before it had been read. An Err says why none was sent, and how many entries had
    /// been read, 0 after want of memory: then the participant may have read some of the log.
    pub fn submit(
        &mut self,
        natives: &NativeList,
        what: &Submission,
    ) -> Result<Slip<'r>, SubmitRefusal>
        requires lawful { (m : Machine) × (state : MediatorState) × IsWorldOf m state self.old × Lawful m (world_of state self.old) }
        requires within { (topology : Topology) × (packages : Packages) × AreSetUp topology packages (self.old.nodes).items
            × CanSubmit topology packages what.now }
        requires there { what.now.participant < length (self.old.nodes).items }
        ensures on { GoesOn self.old.sequencer self.new.sequencer }
        ensures now { self.new.now ≡ self.old.now }
        ensures lawful { (m : Machine) (state : MediatorState) → IsWorldOf m state self.old → Lawful m (world_of state self.old)
            → IsWorldOf m state self.new × Lawful m (world_of state self.new) }
        ensures set_up { (topology : Topology) (packages : Packages) → AreSetUp topology packages (self.old.nodes).items
            → AreSetUp topology packages (self.new.nodes).items }
        ensures bases { (bases : Bases) → AreBases bases (self.old.nodes).items
            → AreBases bases (self.new.nodes).items }
        ensures paused { (paused : List ParticipantId) → ArePaused paused (self.old.nodes).items → ArePaused paused (self.new.nodes).items }
        ensures answers { IsOutOfMemory result ⊎ ((answer : SubmitResult) × IsPlainResult answer × IsSlipOf answer self.new.sequencer result
            × IsAnsweredBy answer self.old what.now self.new) }
    {
        match submit_one(natives, self, what) {
            Ok(answer) => slip_of(&mut self.sequencer, answer),
            Err(AllocError) => Err(SubmitRefusal {
                fault: SubmitFault::Memory,
                read_to: 0,
            }),
        }
    }
}

/// The submissions are answered by their participants, in order. A participant that isn't paused reads to the end of the log, and hands in the request
/// that the submission wants. The results are put at the end of `results`, in the same order. After want of memory some of the submissions were handed
/// in, and `results` has what came of some of those at its end.
pub fn submit_each(
    natives: &NativeList,
    world: &mut World<'_>,
    submits: &SubmissionList,
    results: &mut SubmitResultList,
) -> Result<(), AllocError>
    requires lawful { (m : Machine) × (state : MediatorState) × IsWorldOf m state world.old × Lawful m (world_of state world.old) }
    requires within { (topology : Topology) × (packages : Packages) × AreSetUp topology packages (world.old.nodes).items
        × All (CanSubmit topology packages) submits.now }
    requires there { All (λ (what : Submission). what.participant < length (world.old.nodes).items) submits.now }
    ensures on { GoesOn world.old.sequencer world.new.sequencer }
    ensures now { world.new.now ≡ world.old.now }
    ensures lawful { (m : Machine) (state : MediatorState) → IsWorldOf m state world.old → Lawful m (world_of state world.old)
        → IsWorldOf m state world.new × Lawful m (world_of state world.new) }
    ensures set_up { (topology : Topology) (packages : Packages) → AreSetUp topology packages (world.old.nodes).items
        → AreSetUp topology packages (world.new.nodes).items }
    ensures bases { (bases : Bases) → AreBases bases (world.old.nodes).items
        → AreBases bases (world.new.nodes).items }
    ensures paused { (paused : List ParticipantId) → ArePaused paused (world.old.nodes).items → ArePaused paused (world.new.nodes).items }
    ensures answers { OnOk result ((answers : List SubmitResult) × (results.new ≡ results.old ++ answers) × (length answers ≡ length submits.now)
        × All IsPlainResult answers
        × ((m : Machine) (state : MediatorState) (topology : Topology) (packages : Packages) (round : Round) → IsWorldOf m state world.old
        → Lawful m (world_of state world.old) → AreSetUp topology packages (world.old.nodes).items
        → ArePaused round.paused (world.old.nodes).items
        → Submitted m (why_of topology packages) world.old.now round (world.old.sequencer).list (results_of submits.now answers)
        (world.new.sequencer).list)) }
{
    'submits: for what in submits.as_slice() {
        let answer = submit_one(natives, world, what)?;
        results.push(answer)?;
    }
    Ok(())
}

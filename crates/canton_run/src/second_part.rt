//! The second part of a round: what rules cause once the first has settled.
ghost use Rattle.std.specs.Prelude.{◌≡◌, ◌≢◌, ◌<◌, ◌≤◌, ◌^◌, ◌++◌, ◌∷◌, All, List, [], length, IfOk, OnOk};
ghost use Rattle.ledger_terms.specs.declared.submission.Submission.{Submission as Submitted};
ghost use Rattle.ledger_terms.specs.declared.topology.Topology.{Topology};
ghost use Rattle.ledger_model.specs.Terms.{ParticipantId as Participant};
ghost use Rattle.lang_eval.specs.Found.{Packages};
ghost use Rattle.node_core.specs.Bases.{AreBases, Bases};
ghost use Rattle.node_core.specs.Machines.{why_of};
ghost use Rattle.node_core.specs.declared.submit_result.SubmitResult.{SubmitResult as Answer};
ghost use Rattle.node_core.specs.declared.submit_result.SubmitResult.TheVariants.{Refused};
ghost use Rattle.prepare_request.specs.declared.submit_fault.SubmitFault.TheVariants.{Memory};
ghost use Rattle.trigger_model.specs.CausedRequests.{submissions_in};
ghost use Rattle.trigger_model.specs.CausedRun.{AreAskedSo, FiredRound};
ghost use Rattle.trigger_rules.specs.Kept.{AreNamed, fired_by};
ghost use Rattle.trigger_rules.specs.declared.caused.Caused.{Caused};
ghost use Rattle.world_model.specs.Lawful.{Lawful};
ghost use Rattle.world_model.specs.Machine.{Machine};
ghost use Rattle.world_model.specs.Mediator.{MediatorState};
ghost use Rattle.world_model.specs.Plain.{PlainPart, Submitted as AreSubmitted};
ghost use Rattle.world_model.specs.Rounds.{Round as PartRound};
ghost use Rattle.world_play.specs.Flags.{ArePaused};
ghost use Rattle.world_play.specs.Results.{IsPlainResult, results_of};
ghost use Rattle.world_play.specs.Parts.{GoesOn};
ghost use Rattle.world_play.specs.Submitted.{IsAnsweredBy};
ghost use Rattle.world_play.specs.Submitting.{AreSetUp, CanSubmit};
ghost use Rattle.world_play.specs.WorldOf.{IsWorldOf, world_of};
ghost use Rattle.canton_run.specs.Answered.{round_of};
ghost use Rattle.canton_run.specs.Parts.{second_of};
ghost use Rattle.canton_run.specs.Seen.{CanBeAsked};

use crate::answers::Answers;
use crate::seen::SeenNodes;
use lang_eval::NativeList;
use ledger_terms::Submission;
use node_core::{SubmitFault, SubmitRefusal, SubmitResult, SubmitResultList};
use script_read::Round;
use std::alloc::{AllocError, Global};
use trigger_loop::fire_each;
use trigger_rules::{Answering, CausedList, Rules};
use world_play::{World, begin_round, settle};

/// Asks the rules, one after another, in the round with the number `number`. First just the participants that `round` pauses are paused, and all others
/// read to the end of the log. The result is what the rules cause, which isn't handed in yet. After want of memory some rules may count as fired.
pub fn ask_rules<A: Answering>(
    alloc: Global,
    world: &mut World<'_>,
    rules: &mut Rules<A>,
    round: &Round,
    number: u32,
) -> Result<CausedList, AllocError>
    requires time { world.old.now ≤ 10 ^ 16 }
    requires askable { (m : Machine) × (state : MediatorState) × IsWorldOf m state world.old × Lawful m (world_of state world.old)
        × CanBeAsked m world.old rules.old.rules (fired_by rules.old) }
    ensures now { OnOk result (world.new.now ≡ world.old.now) }
    ensures log { OnOk result ((world.new.sequencer).list ≡ (world.old.sequencer).list) }
    ensures lawful { OnOk result ((m : Machine) (state : MediatorState) → IsWorldOf m state world.old → Lawful m (world_of state world.old)
        → IsWorldOf m state world.new × Lawful m (world_of state world.new)) }
    ensures set_up { OnOk result ((topology : Topology) (packages : Packages) → AreSetUp topology packages (world.old.nodes).items
        → AreSetUp topology packages (world.new.nodes).items) }
    ensures bases { OnOk result ((bases : Bases) → AreBases bases (world.old.nodes).items → AreBases bases (world.new.nodes).items) }
    ensures paused { OnOk result (ArePaused round.now.paused (world.new.nodes).items) }
    ensures rules { (rules.new.rules ≡ rules.old.rules) × (rules.new.answer ≡ rules.old.answer) }
    ensures asked { IfOk result (λ caused. (m : Machine) (state : MediatorState) (fired : FiredRound) (earlier : List Caused)
        → IsWorldOf m state world.old → Lawful m (world_of state world.old) → CanBeAsked m world.old rules.old.rules (fired_by rules.old)
        → fired.number ≡ number → fired.now ≡ world.old.now → fired.paused ≡ round.now.paused → fired.end ≡ length (world.old.sequencer).list
        → AreNamed rules.old.rules
        → AreAskedSo (A.may_answer rules.old.answer) m.reading m.params (world.old.sequencer).list fired earlier rules.old.rules (fired_by rules.old) 0 []
        → AreAskedSo (A.may_answer rules.old.answer) m.reading m.params (world.old.sequencer).list fired earlier rules.old.rules (fired_by rules.new)
        (length rules.old.rules) caused) }
{
    begin_round(world, 0, &round.paused)?;
    world.read_awake()?;
    let seen = SeenNodes {
        nodes: &world.nodes,
    };
    fire_each(alloc, rules, &seen, number, world.now)
}

// A refusal is a result, unless it is want of memory.
fn refused(fault: SubmitFault, read_to: u64) -> Result<SubmitResult, AllocError>
    ensures { IfOk result (λ answer. (fault ≢ Memory) × (answer ≡ Refused fault read_to)) }
{
    match fault {
        SubmitFault::Memory => Err(AllocError),
        fault => Ok(SubmitResult::Refused { fault, read_to }),
    }
}

// What comes of a submission that a rule caused.
fn submit_one(
    natives: &NativeList,
    world: &mut World<'_>,
    what: &Submission,
) -> Result<SubmitResult, AllocError>
    requires lawful { (m : Machine) × (state : MediatorState) × IsWorldOf m state world.old × Lawful m (world_of state world.old) }
    requires within { (topology : Topology) × (packages : Packages) × AreSetUp topology packages (world.old.nodes).items
        × CanSubmit topology packages what.now }
    requires there { what.now.participant < length (world.old.nodes).items }
    requires paused { (paused : List Participant) × ArePaused paused (world.old.nodes).items }
    ensures on { GoesOn world.old.sequencer world.new.sequencer }
    ensures now { world.new.now ≡ world.old.now }
    ensures lawful { (m : Machine) (state : MediatorState) → IsWorldOf m state world.old → Lawful m (world_of state world.old)
        → IsWorldOf m state world.new × Lawful m (world_of state world.new) }
    ensures set_up { (topology : Topology) (packages : Packages) → AreSetUp topology packages (world.old.nodes).items
        → AreSetUp topology packages (world.new.nodes).items }
    ensures bases { (bases : Bases) → AreBases bases (world.old.nodes).items → AreBases bases (world.new.nodes).items }
    ensures paused { (paused : List Participant) → ArePaused paused (world.old.nodes).items → ArePaused paused (world.new.nodes).items }
    ensures answers { IfOk result (λ answer. IsPlainResult answer × IsAnsweredBy answer world.old what.now world.new) }
{
    match world.submit(natives, what) {
        Ok(slip) => {
            // its participant had read all entries before it
            let place = slip.place();
            Ok(SubmitResult::Sent {
                place,
                read_to: place,
            })
        }
        Err(SubmitRefusal { fault, read_to }) => refused(fault, read_to),
    }
}

// What rules caused is submitted in order, and the results are put at the end of `results`.
fn submit_caused(
    natives: &NativeList,
    world: &mut World<'_>,
    caused: &CausedList,
    results: &mut SubmitResultList,
) -> Result<(), AllocError>
    requires lawful { (m : Machine) × (state : MediatorState) × IsWorldOf m state world.old × Lawful m (world_of state world.old) }
    requires within { (topology : Topology) × (packages : Packages) × AreSetUp topology packages (world.old.nodes).items
        × All (CanSubmit topology packages) (submissions_in caused.now) }
    requires there { All (λ (what : Submitted). what.participant < length (world.old.nodes).items) (submissions_in caused.now) }
    requires paused { (paused : List Participant) × ArePaused paused (world.old.nodes).items }
    ensures now { OnOk result (world.new.now ≡ world.old.now) }
    ensures lawful { OnOk result ((m : Machine) (state : MediatorState) → IsWorldOf m state world.old → Lawful m (world_of state world.old)
        → IsWorldOf m state world.new × Lawful m (world_of state world.new)) }
    ensures set_up { OnOk result ((topology : Topology) (packages : Packages) → AreSetUp topology packages (world.old.nodes).items
        → AreSetUp topology packages (world.new.nodes).items) }
    ensures bases { OnOk result ((bases : Bases) → AreBases bases (world.old.nodes).items → AreBases bases (world.new.nodes).items) }
    ensures answers { OnOk result ((answers : List Answer) × (results.new ≡ results.old ++ answers)
        × (length answers ≡ length (submissions_in caused.now)) × All IsPlainResult answers
        × ((m : Machine) (state : MediatorState) (topology : Topology) (packages : Packages) (round : PartRound) → IsWorldOf m state world.old
        → Lawful m (world_of state world.old) → AreSetUp topology packages (world.old.nodes).items
        → ArePaused round.paused (world.old.nodes).items
        → AreSubmitted m (why_of topology packages) world.old.now round (world.old.sequencer).list
        (results_of (submissions_in caused.now) answers) (world.new.sequencer).list)) }
{
    'caused: for one in caused.as_slice() {
        let answer = submit_one(natives, world, &one.submission)?;
        results.push(answer)?;
    }
    Ok(())
}

// Puts what was caused behind other such.
fn append_caused(caused: &mut CausedList, more: CausedList) -> Result<(), AllocError>
    ensures { OnOk result (caused.new ≡ caused.old ++ more) }
{
    'more: for one in more.into_vec() {
        caused.push(one)?;
    }
    Ok(())
}

/// Plays the second part of a round: hands in what rules caused in it, in order, and settles the world. What was caused, the results and the end of this
/// part are put behind those of `answers`. After want of memory some of that may be done.
pub fn play_caused<'r>(
    alloc: Global,
    natives: &'r NativeList,
    world: &mut World<'r>,
    round: &Round,
    caused: CausedList,
    answers: &mut Answers,
) -> Result<(), AllocError>
    requires lawful { (m : Machine) × (state : MediatorState) × IsWorldOf m state world.old × Lawful m (world_of state world.old) }
    requires within { (topology : Topology) × (packages : Packages) × AreSetUp topology packages (world.old.nodes).items
        × All (CanSubmit topology packages) (submissions_in caused) }
    requires there { All (λ (what : Submitted). what.participant < length (world.old.nodes).items) (submissions_in caused) }
    requires paused { ArePaused round.now.paused (world.old.nodes).items }
    ensures now { OnOk result (world.new.now ≡ world.old.now) }
    ensures lawful { OnOk result ((m : Machine) (state : MediatorState) → IsWorldOf m state world.old → Lawful m (world_of state world.old)
        → (after : MediatorState) × IsWorldOf m after world.new × Lawful m (world_of after world.new)) }
    ensures set_up { OnOk result ((topology : Topology) (packages : Packages) → AreSetUp topology packages (world.old.nodes).items
        → AreSetUp topology packages (world.new.nodes).items) }
    ensures bases { OnOk result ((bases : Bases) → AreBases bases (world.old.nodes).items → AreBases bases (world.new.nodes).items) }
    ensures answers { OnOk result ((own : List Answer) × (answers.new.results ≡ answers.old.results ++ own)
        × (length own ≡ length (submissions_in caused)) × All IsPlainResult own
        × ((m : Machine) (state : MediatorState) (topology : Topology) (packages : Packages) → IsWorldOf m state world.old
        → Lawful m (world_of state world.old) → AreSetUp topology packages (world.old.nodes).items
        → PlainPart m (why_of topology packages) world.old.now (round_of (second_of round.now (submissions_in caused)))
        (results_of (submissions_in caused) own) (world.old.sequencer).list (world.new.sequencer).list)) }
    ensures ends { OnOk result (answers.new.ends ≡ answers.old.ends ++ length (world.new.sequencer).list ∷ []) }
    ensures caused { OnOk result (answers.new.caused ≡ answers.old.caused ++ caused) }
{
    submit_caused(natives, world, &caused, &mut answers.results)?;
    append_caused(&mut answers.caused, caused)?;
    settle(alloc, natives, world, &round.paused, round.hold_verdicts)?;
    answers.ends.push(world.sequencer.len())?;
    Ok(())
}

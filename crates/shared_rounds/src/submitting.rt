//! The submissions of a round, by clients beside lanes.
ghost use Rattle.std.specs.Prelude.{◌≡◌, ◌<◌, ◌≤◌, ◌^◌, All, IfOk, length};
ghost use Rattle.ledger_terms.specs.Topologies.{IsValid};
ghost use Rattle.ledger_terms.specs.declared.submission.Submission.{Submission};
ghost use Rattle.lang_eval.specs.Named.{AreKnown, parties_in_packages};
ghost use Rattle.sealed_form.specs.Within.{is_hosted};
ghost use Rattle.prepare_request.specs.Within.{parties_in_what};
ghost use Rattle.world_model.specs.Lawful.{Lawful};
ghost use Rattle.world_model.specs.Mediator.{MediatorState};
ghost use Rattle.world_model.specs.Rounds.{Round};
ghost use Rattle.threads_model.specs.Shared.{Joined};
ghost use Rattle.seq_log.specs.Sequenced.{IsFor};
ghost use Rattle.node_core.specs.Bases.{AreBases, Bases};
ghost use Rattle.node_core.specs.Machines.{why_of};
ghost use Rattle.world_play.specs.Results.{IsPlainResult, results_of};
ghost use Rattle.world_play.specs.Parts.{GoesOn};
ghost use Rattle.world_play.specs.Submitting.{AreSetUp, CanSubmit};
ghost use Rattle.world_play.specs.WorldOf.{IsWorldOf, world_of};
ghost use Rattle.sync_shared.specs.SetUp.{IsSetUp};
ghost use Rattle.shared_rounds.specs.Joined.{AreAnswered};
ghost use Rattle.shared_rounds.specs.Machine.{machine_in};

use crate::clients::clients_of;
use crate::merging::in_order;
use crate::retiring::{results_of_each, retire_each};
use crate::round_input::RoundInput;
use client_threads::{ResultQueue, Workers, serve_beside};
use confirm_reply::Setup;
use lane_pool::Gate;
use ledger_terms::{ParticipantIdList, Submission, SubmissionList};
use node_core::SubmitResultList;
use shared_world::{LEDGER_PARTS, Synchroniser};
use std::alloc::{AllocError, AllocGlobal};
use std::marker::Brand;
use std::random::RandomSource;
use std::sync::Wait;
use std::sync::ledger::Blank;
use std::thread::Threads;
use sync_shared::Session;
use world_play::World;

/// What comes of a round's submissions: the synchroniser after them, and the results in the order of the submissions.
#[derive(Drop)]
pub struct Answered<'r> {
    pub world: World<'r>,
    pub results: SubmitResultList,
}

// The same before the results are put in order: a queue for each participant.
#[derive(Drop)]
struct Gathered<'r> {
    world: World<'r>,
    queues: Vec<ResultQueue>,
}

// The parts of the synchroniser go behind locks, its clients submit beside the lanes, and the parts come back.
fn gather<
    'r,
    S: Session + Send + Sync,
    R: Threads + Wait + Sync + RandomSource + AllocGlobal,
    G: Gate + Sync,
>(
    workers: &Workers<'_, R, G>,
    setup: &Setup,
    world: World<'r>,
    blank: Blank,
    input: RoundInput<'_>,
) -> Result<Gathered<'r>, AllocError>
    requires topology { setup.now.topology ≡ S.topology }
    requires set_up { IsSetUp S.topology S.packages S.machine S.why }
    requires nodes { AreSetUp S.topology S.packages (world.nodes).items }
    requires bases { AreBases S.bases (world.nodes).items }
    requires world { (state : MediatorState) × IsWorldOf S.machine state world × Lawful S.machine (world_of state world) }
    requires history { ((world.sequencer).row ≡ S.history) × ((world.sequencer).list ≡ S.start) }
    requires now { world.now ≤ 10 ^ 16 }
    requires ledger { (blank.name ≡ S.name) × (blank.parts ≡ S.parts) × (S.parts ≡ 1025) }
    requires named { All (λ (what : Submission). AreKnown (is_hosted S.topology) (parties_in_what what.what)) input.submits.now }
    ensures nodes { IfOk result (λ all. AreSetUp S.topology S.packages (all.world.nodes).items) }
    ensures bases { IfOk result (λ all. AreBases S.bases (all.world.nodes).items) }
    ensures world { IfOk result (λ all. (state : MediatorState) × IsWorldOf S.machine state all.world × Lawful S.machine (world_of state all.world)) }
    ensures history { IfOk result (λ all. ((all.world.sequencer).row ≡ S.history) × IsFor S.machine all.world.sequencer) }
    ensures now { IfOk result (λ all. all.world.now ≡ world.entry.now) }
    ensures answered { IfOk result (λ all. AreAnswered S.machine S.why world.entry.now input.entry.paused.now S.start input.entry.submits.now
        (all.world.sequencer).list all.queues.items) }
{
    let alloc = workers.alloc;
    let hosts = setup.topology.hosts.len();
    let mut shared = Synchroniser::<'r, S>::of(alloc, world, blank);
    shared.begin_round(0, input.paused, input.hold_verdicts)?;
    let clients = clients_of(alloc, &mut shared, hosts)?;
    let all = serve_beside(workers, &*shared, clients, input.submits)?;
    let retired = retire_each(alloc, &mut shared, all)?;
    let mut world = shared.into_parts();
    let queues = results_of_each(alloc, &mut world.sequencer, retired)?;
    Ok(Gathered { world, queues })
}

/// Answers the submissions of a round that has begun, by a client for each participant in a thread of its own, beside as many lanes as `workers` has;
/// with less than two submissions no thread is started and no lane works. Each client submits in order, and asks once after each request that was sent.
/// The world that comes out isn't settled, and its participants have the bases that they had. After want of memory there is none any more.
pub fn submit_shared<'r, R: Threads + Wait + Sync + RandomSource + AllocGlobal, G: Gate + Sync>(
    workers: &Workers<'_, R, G>,
    setup: &Setup,
    world: World<'r>,
    paused: &ParticipantIdList,
    hold_verdicts: bool,
    submits: &SubmissionList,
) -> Result<Answered<'r>, AllocError>
    requires valid { IsValid setup.now.topology × AreKnown (is_hosted setup.now.topology) (parties_in_packages setup.now.checked) }
    requires nodes { AreSetUp setup.now.topology setup.now.checked (world.nodes).items }
    requires world { (state : MediatorState) × IsWorldOf (machine_in setup.now world) state world
        × Lawful (machine_in setup.now world) (world_of state world) }
    requires now { world.now ≤ 10 ^ 16 }
    requires within { All (CanSubmit setup.now.topology setup.now.checked) submits.now }
    requires there { All (λ (what : Submission). what.participant < length setup.now.topology.hosts) submits.now }
    ensures on { IfOk result (λ a. GoesOn world.entry.sequencer a.world.sequencer) }
    ensures now { IfOk result (λ a. a.world.now ≡ world.entry.now) }
    ensures nodes { IfOk result (λ a. AreSetUp setup.now.topology setup.now.checked (a.world.nodes).items) }
    ensures bases { IfOk result (λ a. (bases : Bases) → AreBases bases (world.entry.nodes).items → AreBases bases (a.world.nodes).items) }
    ensures world { IfOk result (λ a. (state : MediatorState) × IsWorldOf (machine_in setup.now world.entry) state a.world
        × Lawful (machine_in setup.now world.entry) (world_of state a.world)) }
    ensures many { IfOk result (λ a. length a.results ≡ length submits.now) }
    ensures plain { IfOk result (λ a. All IsPlainResult a.results) }
    ensures joined { IfOk result (λ a. (round : Round) → round.paused ≡ paused.now → round.submits ≡ submits.now
        → Joined (machine_in setup.now world.entry) (why_of setup.now.topology setup.now.checked) world.entry.now round
        (world.entry.sequencer).list (a.world.sequencer).list (results_of submits.now a.results)) }
{
    let blank = Blank::new(LEDGER_PARTS);
    let input = RoundInput {
        paused,
        hold_verdicts,
        submits: submits.as_slice(),
    };
    let Gathered { world, queues } = gather::<Brand, R, G>(workers, setup, world, blank, input)?;
    let results = in_order(workers.alloc, submits.as_slice(), queues)?;
    Ok(Answered { world, results })
}

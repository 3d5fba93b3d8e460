//! A synchroniser whose parts lie behind locks.
ghost use Rattle.std.specs.Prelude.{◌≡◌, ◌+◌, ◌<◌, ◌≤◌, ◌^◌, ℕ, [], false, length, not, nat_eq, IfOk, IfNone, OnOk, OnErr};
ghost use Rattle.canton_model.specs.Genuine.{IsReading};
ghost use Rattle.world_model.specs.Lawful.{Lawful};
ghost use Rattle.world_model.specs.Mediator.{MediatorState};
ghost use Rattle.threads_model.specs.Inputs.{one_if};
ghost use Rattle.threads_model.specs.Behind.{LogBehind};
ghost use Rattle.seq_log.specs.Sequenced.{IsFor};
ghost use Rattle.node_core.specs.Bases.{AreBases};
ghost use Rattle.node_core.specs.Machines.{machine_of};
ghost use Rattle.world_play.specs.Submitting.{AreSetUp};
ghost use Rattle.world_play.specs.WorldOf.{IsWorldOf, world_of};
ghost use Rattle.sync_shared.specs.SetUp.{IsSetUp};
ghost use Rattle.sync_shared.specs.Slips.{IsTicked, read_to, InRow};

use confirm_reply::Setup;
use ledger_terms::{ParticipantId, ParticipantIdList};
use log_row::{LogRow, Slip};
use std::alloc::{AllocError, Global};
use std::marker::Model;
use std::ops::Deref;
use std::sync::ledger::{Blank, Book, Share};
use sync_shared::{Client, RoundRules, Session, Shared, SyncParts, again, last_of};
use world_play::World;

/// How many shares the book of what comes in is cut into: one for each client that isn't retired, and one that stays with the synchroniser.
pub const LEDGER_PARTS: u64 = 1025;

/// A synchroniser whose sequencer, mediator and participants lie behind locks, for as long as threads share it. It counts what comes into the log: a
/// client's requests with the client's share, and Ticks with the share that stays here. Contracts see how many clients aren't retired, how many entries
/// came of retired clients and of Ticks, what the round says, and the log up to the last round's Tick.
#[derive(Drop)]
pub struct Synchroniser<'r, S: Session> {
    shared: Shared<'r, S>,
    // The last entry of the log when the sharing began.
    start: Option<Slip<'r>>,
    // The Tick of the last round that had one, and else the same.
    known: Option<Slip<'r>>,
    home: Share<S>,
    out: u64,
}

impl<'r, S: Session> Model for Synchroniser<'r, S> {
    ghost use Rattle.std.specs.Prelude.{◌≡◌, ◌+◌, ◌≤◌};
    ghost use Rattle.shared_world.specs.Sharing.{Sharing};

    ghost Value = { Sharing };

    ghost use Rattle.canton_model.specs.Genuine.{IsReading};
    ghost use Rattle.sync_shared.specs.SetUp.{IsSetUp};
    ghost use Rattle.sync_shared.specs.Slips.{read_to, InRow};

    ghost view = { λ s. record { out = s.out; counted = s.home.amount; round = s.shared.round; known = read_to s.known } };

    ghost invariant = { λ s. InRow S.history s.start × (read_to s.start ≡ S.start) × (s.home.parts + s.out ≡ 1025) × (s.out ≤ 1024)
        × IsSetUp S.topology S.packages S.machine S.why × IsReading (S.machine).reading × InRow S.history s.known };
}

#[tactic(auto, using(std::proofs::lemmas::List::Elements::same_from_all_zip))]
fn copied(participants: &ParticipantIdList) -> Result<ParticipantIdList, AllocError>
    ensures { IfOk result (λ copy. copy ≡ participants.now) }
{
    participants.clone()
}

// The locks, where nothing is counted yet and nobody is paused.
fn shared_of<'r, S: Session>(alloc: Global, world: World<'r>, count: Book<S>) -> Shared<'r, S>
    requires set_up { IsSetUp S.topology S.packages S.machine S.why }
    requires nodes { AreSetUp S.topology S.packages (world.nodes).items }
    requires bases { AreBases S.bases (world.nodes).items }
    requires world { (state : MediatorState) × IsWorldOf S.machine state world × Lawful S.machine (world_of state world) }
    requires log { ((world.sequencer).row ≡ S.history) × ((world.sequencer).list ≡ S.start) }
    requires now { world.now ≤ 10 ^ 16 }
    requires count { count.total ≡ 0 }
    ensures { result.round ≡ record { time = world.entry.now; paused = []; hold_verdicts = false } }
{
    let World {
        sequencer,
        mediator,
        nodes,
        now,
    } = world;
    let parts = SyncParts {
        sequencer,
        mediator,
        nodes,
        time: now,
    };
    Shared::of(alloc, parts, count)
}

impl<'r, S: Session> Synchroniser<'r, S> {
    /// Puts the parts of a world behind locks, without memory. Nobody is paused at first and no verdicts are held. `alloc` is what its calls allocate
    /// from later. The book, which counts what comes into the log, and its shares are made of `blank`.
    pub fn of(alloc: Global, world: World<'r>, blank: Blank) -> Synchroniser<'r, S>
        requires set_up { IsSetUp S.topology S.packages S.machine S.why }
        requires nodes { AreSetUp S.topology S.packages (world.nodes).items }
        requires bases { AreBases S.bases (world.nodes).items }
        requires world { (state : MediatorState) × IsWorldOf S.machine state world × Lawful S.machine (world_of state world) }
        requires history { (world.sequencer).row ≡ S.history }
        requires start { (world.sequencer).list ≡ S.start }
        requires now { world.now ≤ 10 ^ 16 }
        requires ledger { (blank.name ≡ S.name) × (blank.parts ≡ S.parts) × (S.parts ≡ 1025) }
        ensures { result ≡ record { out = 0; counted = 0; round = record { time = world.entry.now; paused = []; hold_verdicts = false }; known = S.start } }
    {
        let mut world = world;
        let mut start = last_of(&mut world.sequencer);
        let known = again(&mut start);
        let (count, home) = blank.open::<S>();
        Synchroniser {
            shared: shared_of(alloc, world, count),
            start,
            known,
            home,
            out: 0,
        }
    }

    /// A synchroniser for the topology and packages of `setup`: with an empty log in `row`, a participant for each host and nothing read. Its requests
    /// may need `capacity` places of the log in all. The book, which counts what comes into the log, and its shares are made of `blank`. An Err is want
    /// of memory.
    pub fn new(
        alloc: Global,
        setup: &'r Setup,
        row: &'r mut LogRow,
        capacity: u64,
        blank: Blank,
    ) -> Result<Synchroniser<'r, S>, AllocError>
        requires topology { (setup.now.topology ≡ S.topology) × (setup.now.checked ≡ S.packages) }
        requires machine { S.machine ≡ machine_of S.topology S.packages capacity }
        requires bases { (p : ℕ) → S.bases p ≡ 0 }
        requires set_up { IsSetUp S.topology S.packages S.machine S.why }
        requires log { (row.old ≡ S.history) × (S.start ≡ []) }
        requires ledger { (blank.name ≡ S.name) × (blank.parts ≡ S.parts) × (S.parts ≡ 1025) }
        ensures { IfOk result (λ s. s ≡ record { out = 0; counted = 0; round = record { time = 0; paused = []; hold_verdicts = false }; known = [] }) }
    {
        let world = World::new(alloc, setup, row, capacity)?;
        Ok(Synchroniser::of(alloc, world, blank))
    }

    /// Begins a round: time moves on by `advance` microseconds, and where that is above 0 a Tick is sequenced; just these participants are paused, and
    /// `hold_verdicts` says whether lanes hold verdicts back. After want of memory all is as before.
    pub fn begin_round(
        &mut self,
        advance: u64,
        paused: &ParticipantIdList,
        hold_verdicts: bool,
    ) -> Result<(), AllocError>
        requires { self.old.round.time + advance ≤ 10 ^ 16 }
        ensures round { OnOk result (self.new.round ≡ record { time = self.old.round.time + advance; paused = paused.now; hold_verdicts = hold_verdicts }) }
        ensures counted { OnOk result (self.new.counted ≡ self.old.counted + one_if (not (nat_eq advance 0))) }
        ensures tick { OnOk result (0 < advance → IsTicked (self.old.round.time + advance) self.old.known self.new.known) }
        ensures still { OnOk result (advance ≡ 0 → self.new.known ≡ self.old.known) }
        ensures out { self.new.out ≡ self.old.out }
        ensures err { OnErr result (self.new ≡ self.old) }
    {
        let paused = copied(paused)?;
        let time = self.shared.round.time + advance;
        let round = RoundRules {
            time,
            paused,
            hold_verdicts,
        };
        self.shared
            .begin(&mut self.home, &mut self.known, round, advance > 0)
    }

    /// A client of the participant, which has seen all that stood in the log when the sharing began, and has sent nothing. It gets a share of its own,
    /// with which it counts what it appends.
    pub fn client(&mut self, participant: ParticipantId) -> Client<'r, S>
        requires few { self.old.out < 1024 }
        requires host { participant < length (S.topology).hosts }
        ensures client { result ≡ record { list = S.start; tickets = 0; me = participant } }
        ensures out { self.new ≡ record self.old { out = self.old.out + 1 } }
    {
        let share = self.home.split_off(1, 0);
        self.out += 1;
        Client::of(share, again(&mut self.start), participant)
    }

    /// Takes the client's share back, with the count of what it appended. The result is the slip of the last entry that the client had seen, None
    /// exactly where it had seen none.
    pub fn retire(&mut self, client: Client<'r, S>) -> Option<Slip<'r>>
        requires { S.parts ≡ 1025 }
        ensures out { self.new.out + 1 ≡ self.old.out }
        ensures counted { self.new.counted ≡ self.old.counted + client.entry.tickets }
        ensures round { self.new.round ≡ self.old.round }
        ensures known { self.new.known ≡ self.old.known }
        ensures slip { InRow S.history result × (read_to result ≡ client.entry.list) }
    {
        let (share, last) = client.into_parts();
        self.home.merge(share);
        self.out -= 1;
        last
    }

    /// Ends the sharing: the parts, taken out of their locks, as a world again, without memory. Every client has to be retired. The log then has
    /// exactly `counted` requests and Ticks more than when the sharing began. What the mediator and each participant have read begins the log, and the
    /// participants' bases are what they were.
    pub fn into_parts(self) -> World<'r>
        requires ledger { S.parts ≡ 1025 }
        requires out { self.out ≡ 0 }
        ensures row { (result.sequencer).row ≡ S.history }
        ensures is_for { IsFor S.machine result.sequencer }
        ensures log { LogBehind S.machine S.start self.entry.counted (result.sequencer).list }
        ensures nodes { AreSetUp S.topology S.packages (result.nodes).items }
        ensures bases { AreBases S.bases (result.nodes).items }
        ensures world { (state : MediatorState) × IsWorldOf S.machine state result × Lawful S.machine (world_of state result) }
        ensures now { result.now ≡ self.entry.round.time }
    {
        let Synchroniser {
            shared,
            start: _,
            known: _,
            mut home,
            out: _,
        } = self;
        world_from(shared, &mut home)
    }
}

// The world of what lay behind the locks.
fn world_from<'r, S: Session>(shared: Shared<'r, S>, home: &mut Share<S>) -> World<'r>
    requires set_up { IsSetUp S.topology S.packages S.machine S.why × IsReading (S.machine).reading }
    requires parts { home.old.parts ≡ S.parts }
    ensures row { (result.sequencer).row ≡ S.history }
    ensures is_for { IsFor S.machine result.sequencer }
    ensures log { LogBehind S.machine S.start home.old.amount (result.sequencer).list }
    ensures nodes { AreSetUp S.topology S.packages (result.nodes).items }
    ensures bases { AreBases S.bases (result.nodes).items }
    ensures world { (state : MediatorState) × IsWorldOf S.machine state result × Lawful S.machine (world_of state result) }
    ensures now { result.now ≡ shared.entry.round.time }
{
    let SyncParts {
        sequencer,
        mediator,
        nodes,
        time,
    } = shared.into_parts(home);
    World::of(sequencer, mediator, nodes, time)
}

impl<'r, S: Session> Deref for Synchroniser<'r, S> {
    type Target = Shared<'r, S>;

    fn deref(&self) -> &Shared<'r, S>
        ensures { result.now.round ≡ self.now.round }
    {
        &self.shared
    }
}

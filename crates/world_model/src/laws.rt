//! The laws of the definitions, as the clauses of functions that do nothing.

ghost use Rattle.std.specs.Prelude.{◌≡◌, ◌⊎◌, ◌++◌, ◌∷◌, [], ◌<◌, ◌≤◌, ◌+◌, ℕ, suc, slice_get, List, Bool, true, false, Some, None, length, take, Contains};
ghost use Rattle.ledger_terms.specs.declared.submission.Submission.{Submission};
ghost use Rattle.ledger_model.specs.Terms.{ParticipantId};
ghost use Rattle.canton_model.specs.Log.{Params, request_at, decision_time_of};
ghost use Rattle.world_model.specs.Messages.{Entry, Message, Request, Response, Verdict, Decision, Approved, RequestMessage, ResponseMessage, VerdictMessage};
ghost use Rattle.canton_model.specs.Timeline.{Decided, outcome_of, timeline_of};
ghost use Rattle.canton_model.specs.Mediation.{scan};
ghost use Rattle.canton_model.specs.Inbox.{inbox};
ghost use Rattle.canton_model.specs.Reading.{Reading};
ghost use Rattle.canton_model.specs.Genuine.{Genuine, IsReading};
ghost use Rattle.canton_model.specs.Example as model;
ghost use Rattle.world_model.specs.Machine.{Machine, GenuineLog, IsMachine};
ghost use Rattle.world_model.specs.Places.{has_place};
ghost use Rattle.world_model.specs.Sequencing.{last_time, sequenced, reserved};
ghost use Rattle.world_model.specs.Fits.{IsOwed, IsDecision};
ghost use Rattle.world_model.specs.Node.{NodeState, claim, finish, next_claim, outbox_head, owed_at, owes_at, put_back, read_entry, response_at};
ghost use Rattle.world_model.specs.Node.{sent, validate, with_flag};
ghost use Rattle.world_model.specs.Mediator.{MediatorState, cases_of, first_verdict, give_back, next_verdict, read_by_mediator, take_verdict};
ghost use Rattle.world_model.specs.World.{World, Event, Submit, SubmitRaw, happens, played, new_world, with_log, with_mediator, with_node};
ghost use Rattle.world_model.specs.Lawful.{Lawful, MediatorHas, NodeHas};
ghost use Rattle.world_model.specs.Locks.{Claimed, NodeBehind, Prepared};
ghost use Rattle.world_model.specs.Settled.{Settled, append_each, due, due_verdicts, left, pass, passes, replies_below};
ghost use Rattle.world_model.specs.Turns.{IsMediatorReady, IsReady, MayTurn, turn_messages, turns_below, validate_below, verdict_messages, waiting_below};
ghost use Rattle.world_model.specs.Rounds.{Round, RoundAnswers, Results, Why, Duplicate, SubmitResult, Sent, Refused, PartHolds, ResultHolds};
ghost use Rattle.world_model.specs.Rounds.{ResultsHold, RunHolds, begun, read_of, wanted_at};
ghost use Rattle.world_model.specs.Plain.{PlainPart, PlainRounds, Submitted};
ghost use Rattle.world_model.specs.Complete.{AllApprove, RoundsApprove, Unhindered};
ghost use Rattle.world_model.specs.Settling.{PassedTo, WorldReady, caught_up_world, resumed_world};
ghost use Rattle.world_model.specs.Headline.{Headline};
ghost use Rattle.world_model.specs.Example;

/// Each event keeps a world lawful, be it one that does something there or not.
pub fn each_event_keeps()
    ensures { (m : Machine) (w : World) (event : Event) → IsMachine m → Lawful m w → Lawful m (happens m w event) }
{}

/// Whatever events happen from the beginning on, the world is lawful, and its log genuine and within its capacity.
pub fn always_genuine()
    ensures lawful { (m : Machine) (events : List Event) → IsMachine m → Lawful m (played m (new_world m) events) }
    ensures genuine { (m : Machine) (events : List Event) → IsMachine m → GenuineLog m (played m (new_world m) events).log }
{}

/// A message that is handed in keeps the log within its capacity, whether it is appended or refused.
pub fn capacity_stays()
    ensures { (m : Machine) (now : ℕ) (log : List Entry) (message : Message) → reserved log ≤ m.capacity
        → reserved (sequenced m now log message) ≤ m.capacity }
{}

/// What a thread knows between two locks suffices for what it does next, while others make the log longer: the log stays genuine with its request,
/// response or verdict, and the response that it made of a job is the one owed. And every beginning of a genuine log is genuine.
pub fn halves_land()
    ensures request { (m : Machine) (now before : ℕ) (list log : List Entry) (what : Submission) (q : Request)
        → IsMachine m
        → Prepared m before list what q
        → GenuineLog m log
        → GenuineLog m (sequenced m now log (RequestMessage q)) }
    ensures reply { (m : Machine) (now : ℕ) (list more : List Entry) (r : Response)
        → IsOwed m.reading m.params list r
        → GenuineLog m (list ++ more)
        → GenuineLog m (sequenced m now (list ++ more) (ResponseMessage r)) }
    ensures verdict { (m : Machine) (now : ℕ) (list more : List Entry) (v : Verdict)
        → IsDecision m.params list v
        → GenuineLog m (list ++ more)
        → GenuineLog m (sequenced m now (list ++ more) (VerdictMessage v)) }
    ensures job { (m : Machine) (p : ParticipantId) (list more : List Entry) (k : ℕ) (node : NodeState)
        → Claimed m p list k
        → NodeBehind m p (list ++ more) node
        → NodeBehind m p (list ++ more) (finish node (response_at m.reading m.params p (inbox m.reading p list) k)) }
    ensures verdicts { (m : Machine) (p : ParticipantId) (list more : List Entry) (k : ℕ)
        → Claimed m p list k
        → owed_at m.reading m.params p (inbox m.reading p (list ++ more)) k ≡ owed_at m.reading m.params p (inbox m.reading p list) k }
    ensures beginning { (m : Machine) (log : List Entry) (n : ℕ) → GenuineLog m log → GenuineLog m (take n log) }
{}

/// Passes end: after as many as there are responses and verdicts left to come (`left`), or more, a further one appends nothing, and after `left` the
/// log is settled. A log to which a pass appends nothing is settled. Passes keep a log genuine and within its capacity.
pub fn passes_settle()
    ensures settled { (m : Machine) (now : ℕ) (paused : List ParticipantId) (held : Bool) (log : List Entry)
        → Settled m paused held (passes m now paused held (left m.hosts log) log) }
    ensures end { (m : Machine) (now : ℕ) (paused : List ParticipantId) (held : Bool) (n : ℕ) (log : List Entry)
        → left m.hosts log ≤ n
        → pass m now paused held (passes m now paused held n log) ≡ passes m now paused held n log }
    ensures fixed { (m : Machine) (now : ℕ) (paused : List ParticipantId) (held : Bool) (log : List Entry) → pass m now paused held log ≡ log
        → Settled m paused held log }
    ensures genuine { (m : Machine) (now : ℕ) (paused : List ParticipantId) (held : Bool) (n : ℕ) (log : List Entry)
        → IsReading m.reading
        → GenuineLog m log
        → GenuineLog m (passes m now paused held n log) }
    ensures capacity { (m : Machine) (now : ℕ) (paused : List ParticipantId) (held : Bool) (n : ℕ) (log : List Entry)
        → reserved log ≤ m.capacity
        → reserved (passes m now paused held n log) ≤ m.capacity }
{}

/// Behind a genuine log, the messages that a ready participant, which has read its first n entries, appends in its turn leave the same log as the
/// responses that are due of it (`due`).
pub fn turn_appends_what_is_due()
    ensures { (m : Machine) (now : ℕ) (p : ParticipantId) (log : List Entry) (n : ℕ) (node : NodeState)
        → GenuineLog m log
        → n ≤ length log
        → NodeHas m p (take n log) node
        → IsReady m p log node
        → append_each m now log (turn_messages m p log node) ≡ append_each m now log (due m log p) }
{}

/// A turn is its first claim, response or verdict and then the rest of the turn, and where there is none to take it is at its end. So a loop that takes
/// them one by one does what the definitions of a turn say. Claims never make the outbox shorter (`within`).
pub fn one_by_one()
    ensures claim { (reading : Reading) (params : Params) (p : ParticipantId) (node : NodeState) (k : ℕ)
        → next_claim reading params p node ≡ Some k
        → validate_below reading params p (validate reading params p node k) (length node.items) ≡ validate_below reading params p node (length node.items) }
    ensures claimed { (reading : Reading) (params : Params) (p : ParticipantId) (node : NodeState)
        → next_claim reading params p node ≡ None
        → validate_below reading params p node (length node.items) ≡ node }
    ensures within { (reading : Reading) (params : Params) (p : ParticipantId) (node : NodeState) (n : ℕ)
        → length node.outbox ≤ length (validate_below reading params p node n).outbox }
    ensures send { (params : Params) (node : NodeState) (r : Response)
        → outbox_head params node ≡ Some r
        → waiting_below params node (length node.items) ≡ ResponseMessage r ∷ waiting_below params (sent node r.request) (length node.items) }
    ensures sent { (params : Params) (node : NodeState)
        → outbox_head params node ≡ None
        → waiting_below params node (length node.items) ≡ [] }
    ensures give { (params : Params) (log : List Entry) (given : List ℕ) (v : Verdict)
        → first_verdict given (cases_of params log) ≡ Some v
        → verdict_messages given (cases_of params log) ≡ VerdictMessage v ∷ verdict_messages (v.request ∷ given) (cases_of params log) }
    ensures given { (params : Params) (log : List Entry) (given : List ℕ)
        → first_verdict given (cases_of params log) ≡ None
        → verdict_messages given (cases_of params log) ≡ [] }
{}

/// A participant is ready after the responses that are due of it were handed in, whatever it has claimed (`own`); and messages of others, no requests
/// among them, leave it so.
pub fn ready_stays()
    ensures own { (m : Machine) (now : ℕ) (p : ParticipantId) (log : List Entry) (node : NodeState) → IsReady m p (append_each m now log (due m log p)) node }
    ensures others { (m : Machine) (p : ParticipantId) (log more : List Entry) (node : NodeState)
        → ((k : ℕ) (q : Request) → request_at (log ++ more) k ≡ Some q → k < length log)
        → last_time log ≤ last_time (log ++ more)
        → IsReady m p log node
        → IsReady m p (log ++ more) node }
{}

/// The turns of all participants behind a genuine log, one after another, make the log that the responses due of them make (`replies_below`), where
/// each that isn't paused is as `MayTurn` asks. After it each of these is ready again, whatever it has claimed (`ready`).
pub fn turns_are_a_pass()
    ensures turns { (m : Machine) (now : ℕ) (paused : List ParticipantId) (nodes : ParticipantId → NodeState) (log : List Entry)
        → IsReading m.reading
        → GenuineLog m log
        → ((p : ParticipantId) → p < m.hosts → has_place paused p ≡ false → MayTurn m p log (nodes p))
        → turns_below m now paused nodes log m.hosts ≡ replies_below m now paused log m.hosts }
    ensures ready { (m : Machine) (now : ℕ) (paused : List ParticipantId) (log : List Entry) (p : ParticipantId) (node : NodeState)
        → p < m.hosts
        → has_place paused p ≡ false
        → IsReady m p (replies_below m now paused log m.hosts) node }
{}

/// Behind a genuine log, the verdicts that a ready mediator which has read it gives one after another leave the same log as the verdicts that are due
/// (`due_verdicts`).
pub fn mediator_appends_what_is_due()
    ensures { (m : Machine) (now : ℕ) (log : List Entry) (given : List ℕ)
        → GenuineLog m log
        → IsMediatorReady m.params log given
        → append_each m now log (verdict_messages given (cases_of m.params log)) ≡ append_each m now log (due_verdicts m log) }
{}

/// The mediator is ready after the verdicts that are due were handed in (`own`), and messages of others leave it so, if it has given only what is
/// decided.
pub fn mediator_ready_stays()
    ensures own { (m : Machine) (now : ℕ) (log : List Entry) (given : List ℕ)
        → ((k : ℕ) → has_place given k ≡ true → (d : Decision) × (scan m.params log k ≡ Some d))
        → IsMediatorReady m.params (append_each m now log (due_verdicts m log)) given }
    ensures others { (params : Params) (log more : List Entry) (given : List ℕ)
        → last_time log ≤ last_time (log ++ more)
        → ((k : ℕ) → has_place given k ≡ true → (d : Decision) × (scan params log k ≡ Some d))
        → IsMediatorReady params log given
        → IsMediatorReady params (log ++ more) given }
{}

/// After the first stage of settling (`resumed_world`), in which what was lost is put back, a lawful world is ready.
pub fn resuming_makes_ready()
    ensures { (m : Machine) (paused : List ParticipantId) (w : World) → Lawful m w → WorldReady m paused (resumed_world m w) }
{}

/// After catching up (`caught_up_world`) every participant has read the whole log, and the world is as lawful as before.
pub fn catching_up_keeps()
    ensures lawful { (m : Machine) (w : World) → Lawful m w → Lawful m (caught_up_world m w) }
    ensures node { (m : Machine) (w : World) (p : ParticipantId) (node : NodeState)
        → Lawful m w
        → slice_get (caught_up_world m w).nodes p ≡ Some node
        → NodeHas m p w.log node }
{}

/// How a pass goes over a ready world. It begins with participant 0; each participant is skipped where it is paused, or has its turn, after which its
/// state may be any that `NodeHas` allows; then comes the mediator, unless verdicts are held. The log is then that of a pass, and the world ready.
pub fn a_pass_over_a_world()
    ensures begins { (m : Machine) (paused : List ParticipantId) (w : World) → WorldReady m paused w → PassedTo m paused w.log 0 w }
    ensures turn { (m : Machine) (paused : List ParticipantId) (began : List Entry) (p : ParticipantId) (w : World) (node after : NodeState)
        → IsReading m.reading
        → PassedTo m paused began p w
        → slice_get w.nodes p ≡ Some node
        → has_place paused p ≡ false
        → NodeHas m p w.log after
        → PassedTo m paused began (suc p) (with_node (with_log w (append_each m w.now w.log (turn_messages m p w.log node))) p after) }
    ensures skipped { (m : Machine) (paused : List ParticipantId) (began : List Entry) (p : ParticipantId) (w : World)
        → PassedTo m paused began p w
        → has_place paused p ≡ true
        → PassedTo m paused began (suc p) w }
    ensures held { (m : Machine) (paused : List ParticipantId) (began : List Entry) (w : World) (after : MediatorState)
        → PassedTo m paused began m.hosts w
        → MediatorHas m w.log after
        → after.given ≡ (w.mediator).given
        → WorldReady m paused (with_mediator w after) × (w.log ≡ pass m w.now paused true began) }
    ensures ends { (m : Machine) (paused : List ParticipantId) (began : List Entry) (w : World) (after : MediatorState)
        → PassedTo m paused began m.hosts w
        → MediatorHas m w.log after
        → WorldReady m paused (with_mediator (with_log w (append_each m w.now w.log (verdict_messages (w.mediator).given (cases_of m.params w.log)))) after)
        × (append_each m w.now w.log (verdict_messages (w.mediator).given (cases_of m.params w.log)) ≡ pass m w.now paused false began) }
{}

/// What holds of a participant's or the mediator's state over the entries that it has read (`NodeHas`, `MediatorHas`) is kept by each of their
/// calls.
pub fn calls_keep()
    ensures read { (m : Machine) (p : ParticipantId) (read : List Entry) (node : NodeState) (e : Entry) → NodeHas m p read node
        → NodeHas m p (read ++ e ∷ []) (read_entry m.reading p node read e) }
    ensures claim { (m : Machine) (p : ParticipantId) (read : List Entry) (node : NodeState) (k : ℕ) → NodeHas m p read node → k < length node.items
        → NodeHas m p read (claim node k) }
    ensures finish { (m : Machine) (p : ParticipantId) (read : List Entry) (node : NodeState) (k : ℕ)
        → NodeHas m p read node
        → k < length node.items
        → owes_at m.reading p node.items k ≡ true
        → NodeHas m p read (finish node (response_at m.reading m.params p node.items k)) }
    ensures sent { (m : Machine) (p : ParticipantId) (read : List Entry) (node : NodeState) (k : ℕ) → NodeHas m p read node → NodeHas m p read (sent node k) }
    ensures put_back { (m : Machine) (p : ParticipantId) (read : List Entry) (node : NodeState) (k : ℕ) → NodeHas m p read node
        → NodeHas m p read (put_back node k) }
    ensures flag { (m : Machine) (p : ParticipantId) (read : List Entry) (node : NodeState) (b : Bool) → NodeHas m p read node
        → NodeHas m p read (with_flag node b) }
    ensures mediator_read { (m : Machine) (read : List Entry) (mediator : MediatorState) (e : Entry) → MediatorHas m read mediator
        → MediatorHas m (read ++ e ∷ []) (read_by_mediator m.params mediator e) }
    ensures take { (m : Machine) (read : List Entry) (mediator : MediatorState) (v : Verdict)
        → GenuineLog m read
        → MediatorHas m read mediator
        → next_verdict mediator ≡ Some v
        → IsDecision m.params read v × MediatorHas m read (take_verdict mediator v.request) }
    ensures give_back { (m : Machine) (read : List Entry) (mediator : MediatorState) (k : ℕ) → MediatorHas m read mediator
        → MediatorHas m read (give_back mediator k) }
{}

/// A pass after n passes is pass n + 1; and where it appends nothing, n passes leave the log that `left` many leave, so that they were enough.
pub fn passes_add_up()
    ensures next { (m : Machine) (now : ℕ) (paused : List ParticipantId) (held : Bool) (n : ℕ) (log : List Entry)
        → pass m now paused held (passes m now paused held n log) ≡ passes m now paused held (suc n) log }
    ensures enough { (m : Machine) (now : ℕ) (paused : List ParticipantId) (held : Bool) (n : ℕ) (log : List Entry)
        → pass m now paused held (passes m now paused held n log) ≡ passes m now paused held n log
        → passes m now paused held n log ≡ passes m now paused held (left m.hosts log) log }
{}

/// A request that has a decision in a log has it in every longer log, whatever decision times (`before` and `after`) are asked for.
pub fn outcome_stays()
    ensures { (log more : List Entry) (k before after : ℕ) (d : Decision)
        → outcome_of (timeline_of log) k before ≡ Decided d
        → outcome_of (timeline_of (log ++ more)) k after ≡ Decided d }
{}

/// In a genuine settled log whose verdicts aren't held, the request at place k is approved if nothing hinders it (`Unhindered`): each participant that
/// it asks is there, isn't paused and owes only approvals; no Tick stands after it; and the entries from it on are at most as many as the response
/// timeout has microseconds.
pub fn unhindered_is_approved()
    ensures { (m : Machine) (paused : List ParticipantId) (log : List Entry) (k : ℕ)
        → IsReading m.reading
        → GenuineLog m log
        → Settled m paused false log
        → Unhindered m paused log k
        → outcome_of (timeline_of log) k (decision_time_of m.params log k) ≡ Decided Approved }
{}

/// The results (`answers`) that one thread gives a round's submissions, in order, are right (`ResultsHold`) over the log `all`, which is the log that
/// they leave with whatever comes after. They begin behind `log`, which has at least `start` entries; its requests are raw ones or of `earlier` Sent
/// results.
pub fn one_thread_answers<F>()
    ensures { (m : Machine) (why : Why F) (now : ℕ) (round : Round) (raws : List Request) (all : List Entry) (start : ℕ) (log after more : List Entry)
        (answers earlier : Results F)
        → start ≤ length log
        → ((what : Submission) (place read_to : ℕ) → Contains earlier (what, Sent place read_to) → place < length log)
        → ((k : ℕ) (q : Request) → request_at log k ≡ Some q
        → ((before : Submission) × (n : ℕ) × Contains earlier (before, Sent k n)) ⊎ Contains raws q)
        → Submitted m why now round log answers after
        → all ≡ after ++ more
        → ResultsHold m why now round raws all start (length all) earlier answers }
{}

/// A result that is right over the list that its thread knew, against the earlier results of its own participant (`own`), is right over every longer
/// log and against all earlier results.
pub fn results_grow<F>()
    ensures { (m : Machine) (why : Why F) (now : ℕ) (round : Round) (raws : List Request) (list more : List Entry) (start end later : ℕ)
        (own earlier : Results F) (what : Submission) (result : SubmitResult F)
        → end ≤ length list
        → end ≤ later
        → ((x : Submission × SubmitResult F) → Contains own x → Contains earlier x)
        → ((before : Submission) (place n : ℕ) → Contains earlier (before, Sent place n) → before.participant ≡ what.participant
        → Contains own (before, Sent place n))
        → ResultHolds m why now round raws list start end own what result
        → ResultHolds m why now round raws (list ++ more) start later earlier what result }
{}

/// A submission to a participant that isn't paused is refused as Duplicate with a place, and answered nothing else, where it wants a request of a
/// command that the participant's request at that place has: one of an earlier Sent result (`sent`), or one that stood there before its part's
/// submissions, as a raw one does (`standing`).
pub fn duplicates_are_exact<F>()
    ensures sent { (m : Machine) (why : Why F) (now : ℕ) (round : Round) (raws : List Request) (log : List Entry) (start end : ℕ) (earlier : Results F)
        (what before : Submission) (result : SubmitResult F) (place n : ℕ) (first request : Request)
        → IsMachine m
        → GenuineLog m log
        → has_place round.paused what.participant ≡ false
        → Contains earlier (before, Sent place n)
        → before.participant ≡ what.participant
        → request_at log place ≡ Some first
        → first.sender ≡ what.participant
        → first.command ≡ what.command
        → wanted_at m now log what (read_of result) ≡ Some request
        → ResultHolds m why now round raws log start end earlier what result
        → result ≡ Refused (Duplicate place) (read_of result) }
    ensures standing { (m : Machine) (why : Why F) (now : ℕ) (round : Round) (raws : List Request) (log : List Entry) (start end : ℕ) (earlier : Results F)
        (what : Submission) (result : SubmitResult F) (place : ℕ) (first request : Request)
        → IsMachine m
        → GenuineLog m log
        → has_place round.paused what.participant ≡ false
        → request_at log place ≡ Some first
        → place < start
        → first.sender ≡ what.participant
        → first.command ≡ what.command
        → wanted_at m now log what (read_of result) ≡ Some request
        → ResultHolds m why now round raws log start end earlier what result
        → result ≡ Refused (Duplicate place) (read_of result) }
{}

/// A part as one thread plays it, with its results, is right as a run says it of parts (`PartHolds`).
pub fn one_thread_part<F>()
    ensures { (m : Machine) (why : Why F) (now : ℕ) (round : Round) (results : Results F) (before after : List Entry)
        → PlainPart m why now round results before after
        → PartHolds m now round results before after }
{}

/// Rounds as one thread plays them, from the empty log on, make a run that is right (`RunHolds`).
pub fn one_thread_run<F>()
    ensures { (m : Machine) (why : Why F) (rounds : List (RoundAnswers F)) (log : List Entry)
        → IsMachine m
        → PlainRounds m why 0 [] rounds log
        → RunHolds m why log rounds }
{}

/// In a genuine log whose last part has its verdicts not held, a request at place k of that part, submitted or raw, that all approve is approved, if
/// the log has at most as many entries from k to the part's end as the response timeout has microseconds.
pub fn short_part_approves<F>()
    ensures { (m : Machine) (now : ℕ) (round : Round) (results : Results F) (before after : List Entry) (k : ℕ)
        → IsReading m.reading
        → GenuineLog m after
        → PartHolds m now round results before after
        → round.holds_verdicts ≡ false
        → length before ≤ k
        → length after ≤ k + m.params.response_timeout
        → AllApprove m round.paused after k
        → outcome_of (timeline_of after) k (decision_time_of m.params after k) ≡ Decided Approved }
{}

/// Of every genuine log, of a reading that is one (`IsReading`), holds what `Headline` says: what is said of rejections, timeouts and expiries is so,
/// and where no hashes collide the approved requests are one ledger.
pub fn headline_of_genuine_log()
    ensures { (reading : Reading) (params : Params) (log : List Entry) → IsReading reading → Genuine reading params log → Headline reading params log }
{}

/// Each request of a log after any list of events is a raw one of the list, or one that a submission of the list wanted, at some time, over a beginning
/// of the log that ends at or before the request's place.
pub fn requests_of_events()
    ensures { (m : Machine) (events : List Event) (k : ℕ) (request : Request)
        → IsMachine m
        → request_at (played m (new_world m) events).log k ≡ Some request
        → Contains events (SubmitRaw request)
        ⊎ ((what : Submission) × (n now : ℕ) × Contains events (Submit what) × (n ≤ k)
        × (m.prepare what (inbox m.reading what.participant (take n (played m (new_world m) events).log)) now ≡ Some request)) }
{}

/// The log after any list of events has what `Headline` says of genuine logs.
pub fn headline_of_events()
    ensures { (m : Machine) (events : List Event) → IsMachine m → Headline m.reading m.params (played m (new_world m) events).log }
{}

/// In a run the requests that all approve, in short parts whose verdicts aren't held (`RoundsApprove`), are approved at the run's end.
pub fn run_approves<F>()
    ensures { (m : Machine) (why : Why F) (log : List Entry) (rounds : List (RoundAnswers F))
        → IsReading m.reading
        → RunHolds m why log rounds
        → RoundsApprove m log 0 rounds }
{}

/// The premises of the laws can be met, and the definitions compute: the events of `Example.antt` make the log of the example of `canton_model`.
pub fn example()
    ensures machine { IsMachine Example.machine }
    ensures log { (played Example.machine (new_world Example.machine) Example.events).log ≡ model.log }
    ensures raw { (played Example.machine (new_world Example.machine) Example.raw).log ≡ model.log }
    ensures lost { passes Example.machine 0 [] false 2 (played Example.machine (new_world Example.machine) Example.losing).log ≡ model.log }
    ensures settled { pass Example.machine 0 [] false model.log ≡ model.log }
    ensures unhindered { Unhindered Example.machine [] model.log 0 }
{}

//! The laws of the protocol's definitions, as the clauses of functions that do nothing.
ghost use Rattle.std.specs.Prelude.{◌≡◌, ◌++◌, ◌∷◌, [], Some, ◌<◌, ◌≤◌, take, ℕ, Bool, List, true, false, length, None, suc, Contains};
ghost use Rattle.ledger_model.specs.Terms.{Hash, ParticipantId, Act, Path, id_of};
ghost use Rattle.canton_model.specs.Example;
ghost use Rattle.canton_model.specs.Worked;
ghost use Rattle.canton_model.specs.Worked.{v0, v00, v1, two_spends, fetch_of_locked, timeout, early_tick, past_decision_time};
ghost use Rattle.canton_model.specs.Worked.{clean_behind, asked, alone, issued_again, late, missing_at_bank, kept_from_carol};
ghost use Rattle.canton_model.specs.Mediation.{scan};
ghost use Rattle.canton_model.specs.Checks.{verdicts_owed, view_at};
ghost use Rattle.canton_model.specs.Log.{Approve, Reject, Approved, TimedOut, Locked, Inactive, NotFresh, NotVetted, TimeSkew, Unordered};
ghost use Rattle.canton_model.specs.Log.{IdMismatch, NotConformant, NotAuthorised, RootMismatch, ViewMissing, WrongSender, WrongCommon};
ghost use Rattle.canton_model.specs.Log.{Rejected, Params, Entry, Request, Decision};
ghost use Rattle.canton_model.specs.Log.{decision_time_of, request_at};
ghost use Rattle.ledger_model.specs.Language.{roles_of};
ghost use Rattle.canton_model.specs.Reading.{Reading, is_recipient, recipients, paths_confirmed, shown_to, view_paths};
ghost use Rattle.ledger_model.specs.Opening.{OpenedView, Shown, Transaction};
ghost use Rattle.ledger_model.specs.Authority.{is_commit_authorised};
ghost use Rattle.ledger_model.specs.Conformance.{Conforms};
ghost use Rattle.canton_model.specs.Inbox;
ghost use Rattle.canton_model.specs.Inbox.{Item, IsClean, item_after, active_of, active_row, clean, inbox, is_informed, node_active};
ghost use Rattle.canton_model.specs.Inbox.{node_log, project_ledger, has_hosted_stakeholder, is_locked_in_inbox, status_in_inbox};
ghost use Rattle.canton_model.specs.Inbox.{is_decided_in, outcome_in, is_withheld_in, without_places, withheld, confirms_signatory};
ghost use Rattle.canton_model.specs.Shared.{shared_with};
ghost use Rattle.canton_model.specs.Ledger.{whole_at, commits_below, Timely, requests_of, ledger, status_in, is_guard, is_withheld, opened_to};
ghost use Rattle.canton_model.specs.Genuine.{Genuine, EntryFits, IsReading, FramedFacts, IsVouched, NoCollision};
ghost use Rattle.canton_model.specs.Causes.{CauseOf, LocalCauseOf, IsLockedIn};
ghost use Rattle.canton_model.specs.Timeline.{is_approved_in, is_decided_at, timeline_of, outcome_of};
ghost use Rattle.ledger_model.specs.Consistency.{Consistent};
ghost use Rattle.ledger_model.specs.Forest.{Commit, acts, ledger_acts};
ghost use Rattle.ledger_model.specs.Status.{is_locked_by, status_after};
ghost use Rattle.canton_model.specs.Evidence.{IsShownApprovedChanges, past_at, pending_at};
ghost use Rattle.canton_model.specs.Evidence.{status_at, Requests, Opened, Final, Checked, ledger_below};

/// The approved requests below a place `end`, in order, are a consistent ledger, whatever form requests have, where the three premises of
/// `Evidence.antt` hold: `Opened`, `Final` and `Checked`.
pub fn one_ledger()
    ensures consistent { (r : Requests) (end : ℕ)
        → Opened r end
        → Final r end
        → Checked r end
        → Consistent (ledger_acts (ledger_below r.is_approved r.whole end)) }
{}

/// In a log with its times and verdicts in order, a request that is decided at a place of the log is approved over the whole log just where an Approved
/// verdict on it stands before that place, and before a place where it is undecided none stands. `confirms_signatory_of` has no part in it.
pub fn decided_is_final()
    ensures { (reading : Reading) (params : Params) (log : List Entry) (confirms_signatory_of : ParticipantId → Hash → Bool)
        → Timely params log
        → Final (requests_of reading params log confirms_signatory_of) (length log) }
{}

/// The approved requests of a log with its times and verdicts in order are a consistent ledger, where the premises `Opened` and `Checked` of
/// `one_ledger` hold of its requests.
pub fn one_ledger_of_log()
    ensures { (reading : Reading) (params : Params) (log : List Entry) (confirms_signatory_of : ParticipantId → Hash → Bool)
        → Timely params log
        → Opened (requests_of reading params log confirms_signatory_of) (length log)
        → Checked (requests_of reading params log confirms_signatory_of) (length log)
        → Consistent (ledger_acts (ledger reading log)) }
{}

/// A participant p that is shown every change of contract c by approved requests below place k, and doesn't count c as locked there, gives it the
/// ledger's status at k, where the premises `Final` and `Checked` hold up to an `end` behind k.
pub fn status_is_shared()
    ensures { (r : Requests) (end p k : ℕ) (c : Hash)
        → k < end
        → IsShownApprovedChanges r k p c
        → Final r end
        → Checked r end
        → is_locked_by (pending_at r p k) c ≡ false
        → status_after (past_at r p k) c ≡ status_at r k c }
{}

/// In a genuine log without collisions the log of participant p up to its clean place, when it has read n entries, is the projection to its hosted
/// parties of the ledger below that place, without the places that are withheld from p.
pub fn node_log_is_projection()
    ensures { (reading : Reading) (params : Params) (log : List Entry) (p : ParticipantId) (n : ℕ)
        → IsReading reading
        → NoCollision reading log
        → Genuine reading params log
        → n ≤ length log
        → node_log params (inbox reading p (take n log))
        ≡ project_ledger (is_informed reading p)
        (without_places (is_withheld reading log p) (commits_below reading log (clean params (inbox reading p (take n log))))) }
{}

/// In a genuine log a participant p that has read n entries knows of each place k below its clean place whether it is withheld from it.
pub fn what_is_withheld_is_known()
    ensures { (reading : Reading) (params : Params) (log : List Entry) (p : ParticipantId) (n k : ℕ)
        → Genuine reading params log
        → n ≤ length log
        → k < clean params (inbox reading p (take n log))
        → is_withheld_in (inbox reading p (take n log)) k ≡ is_withheld reading log p k }
{}

/// The approved requests of a genuine log without collisions are a consistent ledger.
pub fn one_ledger_of_genuine_log()
    ensures { (reading : Reading) (params : Params) (log : List Entry)
        → IsReading reading
        → NoCollision reading log
        → Genuine reading params log
        → Consistent (ledger_acts (ledger reading log)) }
{}

/// In a genuine log without collisions the approved request at place k has a whole, which conforms and is authorised.
pub fn approved_conform_and_are_authorised()
    ensures whole { (reading : Reading) (params : Params) (log : List Entry) (k : ℕ) (request : Request)
        → IsReading reading
        → NoCollision reading log
        → Genuine reading params log
        → is_approved_in k (timeline_of log) ≡ true
        → request_at log k ≡ Some request
        → (transaction : Transaction) × (reading.whole request ≡ Some transaction) }
    ensures conform { (reading : Reading) (params : Params) (log : List Entry) (k : ℕ) (commit : Commit)
        → IsReading reading
        → NoCollision reading log
        → Genuine reading params log
        → is_approved_in k (timeline_of log) ≡ true
        → whole_at reading log k ≡ Some commit
        → Conforms reading.language commit.roots }
    ensures authorised { (reading : Reading) (params : Params) (log : List Entry) (k : ℕ) (commit : Commit)
        → IsReading reading
        → NoCollision reading log
        → Genuine reading params log
        → is_approved_in k (timeline_of log) ≡ true
        → whole_at reading log k ≡ Some commit
        → is_commit_authorised (roles_of reading.language) commit ≡ true }
{}

/// In a genuine log each view of the approved request at place k was found, by somebody that confirms it, to be from the sender and well split.
pub fn approved_requests_are_vouched_for()
    ensures { (reading : Reading) (params : Params) (log : List Entry) (k : ℕ) (request : Request) (path : Path)
        → IsReading reading
        → Genuine reading params log
        → is_approved_in k (timeline_of log) ≡ true
        → request_at log k ≡ Some request
        → Contains (view_paths reading request) path
        → IsVouched reading request path }
{}

/// In a genuine log without collisions the active contracts of participant p, which has read n entries, at each place m up to its clean one are those
/// with a hosted stakeholder that the ledger's commits below m, taken whole and without the places that are withheld from p, create and don't consume.
pub fn active_sets_are_exact()
    ensures { (reading : Reading) (params : Params) (log : List Entry) (p : ParticipantId) (n m : ℕ)
        → IsReading reading
        → NoCollision reading log
        → Genuine reading params log
        → n ≤ length log
        → m ≤ clean params (inbox reading p (take n log))
        → node_active reading p (inbox reading p (take n log)) m
        ≡ active_of reading p (without_places (is_withheld reading log p) (commits_below reading log m)) }
{}

/// In a genuine log without collisions two participants p and q know the same contracts of which each hosts a stakeholder, however far each has read (n
/// and o entries), at each place m up to both of their clean places and below which nothing is withheld from either.
pub fn shared_contracts_agree()
    ensures { (reading : Reading) (params : Params) (log : List Entry) (p q : ParticipantId) (n o m : ℕ)
        → IsReading reading
        → NoCollision reading log
        → Genuine reading params log
        → n ≤ length log
        → o ≤ length log
        → m ≤ clean params (inbox reading p (take n log))
        → m ≤ clean params (inbox reading q (take o log))
        → ((k : ℕ) → k < m → is_withheld reading log p k ≡ false)
        → ((k : ℕ) → k < m → is_withheld reading log q k ≡ false)
        → shared_with reading q (node_active reading p (inbox reading p (take n log)) m)
        ≡ shared_with reading p (node_active reading q (inbox reading q (take o log)) m) }
{}

/// A log of one create (`Example.antt`) meets the premises of `one_ledger_of_genuine_log`, so that these can be met; its ledger, clean place and active
/// contracts are computed.
pub fn example()
    ensures reading { IsReading Example.reading }
    ensures distinct { NoCollision Example.reading Example.log }
    ensures genuine { Genuine Example.reading Example.params Example.log }
    ensures ledger { ledger_acts (ledger Example.reading Example.log) ≡ Example.note ∷ [] }
    ensures clean { clean Example.params (inbox Example.reading 0 Example.log) ≡ 3 }
    ensures active { node_active Example.reading 0 (inbox Example.reading 0 Example.log) 3 ≡ active_row 0 Example.note ∷ [] }
    ensures unsettled { clean Example.params (inbox Example.reading 0 (take 2 Example.log)) ≡ 0 }
{}

/// In a genuine log what a rejection, a timeout or an expiry of the request at place j says is so, whether hashes collide or not: the check of the
/// participant that rejects gives the reason that is told, and a contract that is said to be locked is locked.
pub fn each_outcome_has_its_cause()
    ensures { (reading : Reading) (params : Params) (log : List Entry) (j : ℕ)
        → IsReading reading
        → Genuine reading params log
        → LocalCauseOf reading params log j (outcome_of (timeline_of log) j (decision_time_of params log j)) }
{}

/// In a genuine log without collisions the outcome of the request at place j says what `each_outcome_has_its_cause` has, and a rejection more. As
/// Inactive: an action of the view's core uses a contract that isn't active by the ledger below j and that none opened before it creates, or something
/// below j is withheld from who rejects. As NotFresh: one of the core creates a contract that isn't unknown by the ledger below j.
pub fn each_rejection_holds_of_the_ledger()
    ensures { (reading : Reading) (params : Params) (log : List Entry) (j : ℕ)
        → IsReading reading
        → NoCollision reading log
        → Genuine reading params log
        → CauseOf reading params log j (outcome_of (timeline_of log) j (decision_time_of params log j)) }
{}

/// In a genuine log a contract c that participant p counts as locked at place k is locked there: some undecided request below k creates or consumes it,
/// by an authentic action that a complete envelope opens to somebody.
pub fn what_counts_as_locked_is_locked()
    ensures { (reading : Reading) (params : Params) (log : List Entry) (p k : ℕ) (c : Hash)
        → Genuine reading params log
        → is_locked_in_inbox reading params (inbox reading p (take (suc k) log)) k c ≡ true
        → IsLockedIn reading params log k c }
{}

/// In a genuine log without collisions a participant p that doesn't count a contract as locked at place k gives it the ledger's status there, where it
/// confirms a signatory of it, or hosts a stakeholder of it and nothing below k is withheld from it. The contract is that of an authentic action a that
/// a complete envelope opens to anybody (q) at any place (j).
pub fn participants_agree_with_the_ledger()
    ensures confirming { (reading : Reading) (params : Params) (log : List Entry) (p q j k : ℕ) (a : Act)
        → IsReading reading
        → NoCollision reading log
        → Genuine reading params log
        → Contains (acts (opened_to reading q (request_at log j))) a
        → reading.is_authentic a ≡ true
        → confirms_signatory reading p a ≡ true
        → k < length log
        → is_locked_in_inbox reading params (inbox reading p (take (suc k) log)) k (id_of a.action) ≡ false
        → status_in_inbox reading (inbox reading p (take (suc k) log)) k (id_of a.action) ≡ status_in reading log k (id_of a.action) }
    ensures hosting { (reading : Reading) (params : Params) (log : List Entry) (p q j k : ℕ) (a : Act)
        → IsReading reading
        → NoCollision reading log
        → Genuine reading params log
        → Contains (acts (opened_to reading q (request_at log j))) a
        → reading.is_authentic a ≡ true
        → has_hosted_stakeholder reading p a ≡ true
        → ((m : ℕ) → m < k → is_withheld reading log p m ≡ false)
        → k < length log
        → is_locked_in_inbox reading params (inbox reading p (take (suc k) log)) k (id_of a.action) ≡ false
        → status_in_inbox reading (inbox reading p (take (suc k) log)) k (id_of a.action) ≡ status_in reading log k (id_of a.action) }
{}

/// The clean place of an inbox is the greatest place, of those up to its length, below which every request received is decided over all its items.
pub fn clean_is_greatest()
    ensures clean { (params : Params) (items : List Item) → IsClean params items (Inbox.clean params items) }
    ensures greatest { (params : Params) (items : List Item) (n : ℕ) → IsClean params items n → n ≤ Inbox.clean params items }
{}

/// Every beginning of a genuine log is genuine, and so is a genuine log with one entry more that fits it.
pub fn genuine_logs_grow()
    ensures beginning { (reading : Reading) (params : Params) (log : List Entry) (n : ℕ) → Genuine reading params log → Genuine reading params (take n log) }
    ensures next { (reading : Reading) (params : Params) (log : List Entry) (entry : Entry)
        → Genuine reading params log
        → EntryFits reading params log entry
        → Genuine reading params (log ++ entry ∷ []) }
{}

/// What the mediator decides on the request at place j over a log it decides over every log that begins with this one.
pub fn decisions_stay()
    ensures { (params : Params) (log more : List Entry) (j : ℕ) (decision : Decision)
        → scan params log j ≡ Some decision
        → scan params (log ++ more) j ≡ Some decision }
{}

/// What a participant knows of contracts at place k, and the verdicts that it owes there, depend on the first k + 1 items alone.
pub fn later_items_change_nothing()
    ensures status { (reading : Reading) (items : List Item) (k : ℕ) (c : Hash)
        → status_in_inbox reading (take (suc k) items) k c ≡ status_in_inbox reading items k c }
    ensures locked { (reading : Reading) (params : Params) (items : List Item) (k : ℕ) (c : Hash)
        → is_locked_in_inbox reading params (take (suc k) items) k c ≡ is_locked_in_inbox reading params items k c }
    ensures owed { (reading : Reading) (params : Params) (p : ParticipantId) (items : List Item) (k : ℕ)
        → verdicts_owed reading params p (take (suc k) items) k ≡ verdicts_owed reading params p items k }
{}

/// In a log with its times and verdicts in order a recipient p of the request at place k learns by its inbox whether and how the request was decided.
pub fn recipients_learn_outcomes()
    ensures decided { (reading : Reading) (params : Params) (p : ParticipantId) (log : List Entry) (k : ℕ) (request : Request)
        → Timely params log
        → request_at log k ≡ Some request
        → is_recipient reading p request ≡ true
        → is_decided_in params (inbox reading p log) k (length (inbox reading p log))
        ≡ is_decided_at (timeline_of log) k (decision_time_of params log k) (length log) }
    ensures outcome { (reading : Reading) (params : Params) (p : ParticipantId) (log : List Entry) (k : ℕ) (request : Request)
        → Timely params log
        → request_at log k ≡ Some request
        → is_recipient reading p request ≡ true
        → outcome_in params (inbox reading p log) k ≡ outcome_of (timeline_of log) k (decision_time_of params log k) }
{}

/// In a genuine log without collisions the requests meet the first and the third premise of the law `one_ledger`. `Opened`: what is opened of an
/// approved request is part of its whole, and each participant that guards a contract is opened each authentic action on it. `Checked`: each action of
/// an approved request was passed by each guard of its contract, who confirms a signatory of it (`is_guard`).
pub fn genuine_logs_are_evidence()
    ensures opened { (reading : Reading) (params : Params) (log : List Entry)
        → IsReading reading
        → NoCollision reading log
        → Genuine reading params log
        → Opened (requests_of reading params log (is_guard reading log)) (length log) }
    ensures checked { (reading : Reading) (params : Params) (log : List Entry)
        → IsReading reading
        → NoCollision reading log
        → Genuine reading params log
        → Checked (requests_of reading params log (is_guard reading log)) (length log) }
{}

/// A complete envelope of a framed request opens to its recipient p each view that p confirms, by the view's path. So a view is rejected as ViewMissing
/// only where the envelope is missing or isn't complete.
pub fn complete_envelopes_open_what_is_confirmed()
    ensures { (reading : Reading) (request : Request) (p : ParticipantId) (shown : Shown) (path : Path)
        → FramedFacts reading request
        → shown_to reading p request ≡ Some shown
        → Contains (paths_confirmed reading p request) path
        → (view : OpenedView) × (view_at path shown.views ≡ Some view) }
{}

/// A framed request asks at least one participant.
pub fn framed_requests_ask_somebody()
    ensures { (reading : Reading) (request : Request)
        → FramedFacts reading request
        → (p : ParticipantId) × Contains request.confirming p }
{}

/// With each entry that a log grows by, an inbox of it grows by one item: what its participant learns of the entry.
pub fn inbox_grows()
    ensures { (reading : Reading) (p : ParticipantId) (log : List Entry) (entry : Entry)
        → inbox reading p (log ++ entry ∷ []) ≡ inbox reading p log ++ item_after reading p log entry ∷ [] }
{}

/// The decisions, clean places, withheld places and participants' logs of worked examples: each clause computes one of a log of `Worked.antt`, which
/// describes the log.
pub fn worked_decisions()
    ensures first_spend { scan Worked.params two_spends 3 ≡ Some Approved }
    ensures second_spend { scan Worked.params two_spends 4 ≡ Some (Rejected 0 (0 ∷ []) Locked) }
    ensures timeout { scan Worked.params timeout 3 ≡ Some (TimedOut (0 ∷ [])) }
    ensures after_timeout { scan Worked.params timeout 7 ≡ Some Approved }
    ensures early_tick { scan Worked.params early_tick 3 ≡ None }
    ensures missing_at_bank { scan Worked.params missing_at_bank 3 ≡ Some (Rejected 0 (0 ∷ []) ViewMissing) }
    ensures past_decision_time { clean Worked.params (inbox Worked.reading 1 (take 3 past_decision_time)) ≡ 0 }
    ensures expired_later { clean Worked.params (inbox Worked.reading 1 past_decision_time) ≡ 4 }
    ensures clean_behind { clean Worked.params (inbox Worked.reading 1 clean_behind) ≡ 3 }
    ensures kept_from_carol { clean Worked.params (inbox Worked.reading 2 kept_from_carol) ≡ 7 }
    ensures kept_from_carol_places { withheld Worked.params (inbox Worked.reading 2 kept_from_carol) ≡ 3 ∷ [] }
    ensures kept_from_carol_ledger { node_log Worked.params (inbox Worked.reading 2 kept_from_carol) ≡ [] }
    ensures clean_behind_ledger { length (node_log Worked.params (inbox Worked.reading 1 clean_behind)) ≡ 1 }
{}

/// The logs `two_spends` and `kept_from_carol` of `Worked.antt`, of three participants, meet the premises of the other laws: their reading is one, they
/// are genuine, and no hashes collide in them.
pub fn worked_log_is_genuine()
    ensures reading { IsReading Worked.reading }
    ensures distinct { NoCollision Worked.reading two_spends }
    ensures genuine { Genuine Worked.reading Worked.params two_spends }
    ensures kept_distinct { NoCollision Worked.reading kept_from_carol }
    ensures kept_genuine { Genuine Worked.reading Worked.params kept_from_carol }
{}

/// The verdicts that participants owe in worked examples: each clause computes those of one participant, 0 for Bank's, 1 for Alice's and 2 for
/// Carol's, on one request of a log of `Worked.antt`.
pub fn worked_checks()
    ensures transfer_bank { verdicts_owed Worked.reading Worked.params 0 (inbox Worked.reading 0 (take 4 two_spends)) 3 ≡ v0 Approve ∷ v00 Approve ∷ [] }
    ensures transfer_alice { verdicts_owed Worked.reading Worked.params 1 (inbox Worked.reading 1 (take 4 two_spends)) 3 ≡ v0 Approve ∷ [] }
    ensures transfer_carol { verdicts_owed Worked.reading Worked.params 2 (inbox Worked.reading 2 (take 4 two_spends)) 3 ≡ [] }
    ensures second_spend_bank { verdicts_owed Worked.reading Worked.params 0 (inbox Worked.reading 0 (take 5 two_spends)) 4
        ≡ v0 (Reject Locked 0) ∷ v00 Approve ∷ [] }
    ensures second_spend_alice { verdicts_owed Worked.reading Worked.params 1 (inbox Worked.reading 1 (take 5 two_spends)) 4 ≡ v0 (Reject Locked 0) ∷ [] }
    ensures fetch_of_locked_bank { verdicts_owed Worked.reading Worked.params 0 (inbox Worked.reading 0 fetch_of_locked) 4 ≡ v0 (Reject Locked 0) ∷ [] }
    ensures after_timeout_bank { verdicts_owed Worked.reading Worked.params 0 (inbox Worked.reading 0 (take 8 timeout)) 7 ≡ v0 Approve ∷ v00 Approve ∷ [] }
    ensures forged_input { verdicts_owed Worked.reading Worked.params 0 (inbox Worked.reading 0 (asked 6)) 3 ≡ v0 (Reject IdMismatch 0) ∷ [] }
    ensures invented_input { verdicts_owed Worked.reading Worked.params 0 (inbox Worked.reading 0 (asked 7)) 3 ≡ v0 (Reject Inactive 0) ∷ [] }
    ensures used_after_bank { verdicts_owed Worked.reading Worked.params 0 (inbox Worked.reading 0 (asked 8)) 3
        ≡ v0 Approve ∷ v00 Approve ∷ v1 (Reject Unordered 0) ∷ [] }
    ensures used_after_alice { verdicts_owed Worked.reading Worked.params 1 (inbox Worked.reading 1 (asked 8)) 3 ≡ v0 Approve ∷ v1 (Reject Unordered 0) ∷ [] }
    ensures no_authority { verdicts_owed Worked.reading Worked.params 0 (inbox Worked.reading 0 (alone 9)) 0 ≡ v0 (Reject NotAuthorised 0) ∷ [] }
    ensures not_fresh { verdicts_owed Worked.reading Worked.params 0 (inbox Worked.reading 0 issued_again) 3 ≡ v0 (Reject NotFresh 0) ∷ [] }
    ensures not_vetted { verdicts_owed Worked.reading Worked.params 1 (inbox Worked.reading 1 (alone 13)) 0 ≡ v0 (Reject NotVetted 0) ∷ [] }
    ensures not_conformant { verdicts_owed Worked.reading Worked.params 0 (inbox Worked.reading 0 (asked 14)) 3 ≡ v0 (Reject NotConformant 0) ∷ [] }
    ensures just_early { verdicts_owed Worked.reading Worked.params 1 (inbox Worked.reading 1 (alone 11)) 0 ≡ v0 Approve ∷ [] }
    ensures too_early { verdicts_owed Worked.reading Worked.params 1 (inbox Worked.reading 1 (alone 12)) 0 ≡ v0 (Reject TimeSkew 0) ∷ [] }
    ensures just_late { verdicts_owed Worked.reading Worked.params 1 (inbox Worked.reading 1 (late 59999999)) 1 ≡ v0 Approve ∷ [] }
    ensures too_late { verdicts_owed Worked.reading Worked.params 1 (inbox Worked.reading 1 (late 60000000)) 1 ≡ v0 (Reject TimeSkew 0) ∷ [] }
    ensures foreign_root_bank { verdicts_owed Worked.reading Worked.params 0 (inbox Worked.reading 0 (alone 10)) 0 ≡ v1 (Reject NotAuthorised 0) ∷ [] }
    ensures foreign_root_alice { verdicts_owed Worked.reading Worked.params 1 (inbox Worked.reading 1 (alone 10)) 0 ≡ v0 Approve ∷ [] }
{}

/// Verdicts that participants owe to requests that lack an envelope, have another tree, claim what isn't so, or create a contract that has no
/// signatory. Each clause computes those of one participant, 0 for Bank's, 1 for Alice's and 2 for Carol's; `other_informees_recipients` the recipients
/// of request 23.
pub fn worked_checks_of_tampered_requests()
    ensures no_envelope_bank { verdicts_owed Worked.reading Worked.params 0 (inbox Worked.reading 0 (asked 20)) 3
        ≡ v0 (Reject ViewMissing 0) ∷ v00 (Reject ViewMissing 0) ∷ [] }
    ensures no_envelope_alice { verdicts_owed Worked.reading Worked.params 1 (inbox Worked.reading 1 (asked 20)) 3 ≡ v0 Approve ∷ [] }
    ensures other_tree_bank { verdicts_owed Worked.reading Worked.params 0 (inbox Worked.reading 0 (asked 21)) 3
        ≡ v0 (Reject RootMismatch 0) ∷ v00 (Reject RootMismatch 0) ∷ [] }
    ensures other_sender_bank { verdicts_owed Worked.reading Worked.params 0 (inbox Worked.reading 0 (asked 22)) 3
        ≡ v0 (Reject WrongSender 0) ∷ v00 (Reject WrongSender 0) ∷ [] }
    ensures other_sender_alice { verdicts_owed Worked.reading Worked.params 1 (inbox Worked.reading 1 (asked 22)) 3 ≡ v0 (Reject WrongSender 0) ∷ [] }
    ensures other_informees_bank { verdicts_owed Worked.reading Worked.params 0 (inbox Worked.reading 0 (asked 23)) 3
        ≡ v0 Approve ∷ v00 (Reject WrongCommon 0) ∷ [] }
    ensures other_informees_recipients { recipients Worked.reading (0 ∷ 1 ∷ 2 ∷ []) (Worked.request_for 1 23) ≡ 0 ∷ 1 ∷ [] }
    ensures other_requesters_bank { verdicts_owed Worked.reading Worked.params 0 (inbox Worked.reading 0 (asked 25)) 3
        ≡ v0 (Reject WrongSender 0) ∷ v00 (Reject WrongSender 0) ∷ [] }
    ensures other_confirmers_bank { verdicts_owed Worked.reading Worked.params 0 (inbox Worked.reading 0 (asked 26)) 3
        ≡ v0 Approve ∷ v00 (Reject WrongCommon 0) ∷ [] }
    ensures other_confirmers_carol { verdicts_owed Worked.reading Worked.params 2 (inbox Worked.reading 2 (asked 26)) 3 ≡ v00 (Reject WrongCommon 0) ∷ [] }
    ensures merged_views_bank { verdicts_owed Worked.reading Worked.params 0 (inbox Worked.reading 0 (asked 27)) 3 ≡ v0 (Reject WrongCommon 0) ∷ [] }
    ensures parted_views_bank { verdicts_owed Worked.reading Worked.params 0 (inbox Worked.reading 0 (asked 28)) 3
        ≡ v0 (Reject WrongCommon 0) ∷ v00 Approve ∷ [] }
    ensures no_roles_bank { verdicts_owed Worked.reading Worked.params 0 (inbox Worked.reading 0 (asked 29)) 3 ≡ v0 (Reject WrongCommon 0) ∷ [] }
{}

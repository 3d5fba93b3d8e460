//! Laws of pruned inboxes, each the contract of a function with nothing to do.
ghost use Rattle.std.specs.Prelude.{◌≡◌, ◌++◌, ◌≤◌, ℕ, List, Some, drop, filter, length, slice_get, take, true};
ghost use Rattle.ledger_terms.specs.declared.active_row.ActiveRow.{ActiveRow};
ghost use Rattle.ledger_terms.specs.declared.params.Params.{Params};
ghost use Rattle.ledger_model.specs.Terms.{Hash, ParticipantId};
ghost use Rattle.canton_model.specs.declared.entry.Entry.{Entry};
ghost use Rattle.canton_model.specs.declared.verdict.Verdict.{Verdict};
ghost use Rattle.canton_model.specs.Checks.{verdicts_owed};
ghost use Rattle.canton_model.specs.Genuine.{Genuine};
ghost use Rattle.canton_model.specs.Inbox.{Item, decision_time_in, inbox, is_stakeholder_hosted, last_time, node_active, status_in_inbox, verdict_in};
ghost use Rattle.canton_model.specs.Ledger.{Timely};
ghost use Rattle.canton_model.specs.Reading.{Reading};
ghost use Rattle.world_model.specs.Node.{NodeState, next_claim, outbox_head};
ghost use Rattle.pruned_inbox.specs.Alike.{AnswersAlike};
ghost use Rattle.pruned_inbox.specs.Base;
ghost use Rattle.pruned_inbox.specs.Base.{IsBase};
ghost use Rattle.pruned_inbox.specs.Duties.{DutiesAlike};
ghost use Rattle.pruned_inbox.specs.Forgotten.{Quiet, forget, retime, silent_front};
ghost use Rattle.pruned_inbox.specs.Orderly.{IsOrderly};
ghost use Rattle.pruned_inbox.specs.Received.{is_received_at};
ghost use Rattle.pruned_inbox.specs.Start.{GoesOn, IsStart, Start, active_kept, no_start, status_kept, verdicts_kept};

/// A participant p that keeps an orderly inbox from a base b on, beside what the inbox leaves there (`start`), answers whatever is asked of places
/// from b on as one that keeps all of it.
pub fn pruned_inboxes_answer_alike()
    ensures { (reading : Reading) (params : Params) (p : ParticipantId) (items : List Item) (b : ℕ) (start : Start)
        → IsOrderly params items
        → IsBase params items b
        → IsStart reading items b start
        → AnswersAlike reading params p items (forget b items) b start }
{}

/// Behind b silent items, the last of which has the time of the item before b, the items of an orderly inbox from a base b on answer with its `start`
/// whatever is asked of places from b on as the whole inbox does. So of the items below b no more is wanted.
pub fn silent_fronts_answer_alike()
    ensures { (reading : Reading) (params : Params) (p : ParticipantId) (items : List Item) (b : ℕ) (start : Start)
        → IsOrderly params items
        → IsBase params items b
        → IsStart reading items b start
        → AnswersAlike reading params p items (silent_front b (last_time (take b items)) ++ drop b items) b start }
{}

/// Over every genuine log, a participant p that was pruned to a base b when it had read n entries, and then read on to `later`, answers whatever is
/// asked of places from b on as one that keeps all of its inbox.
pub fn restarted_participants_answer_alike()
    ensures { (reading : Reading) (params : Params) (p : ParticipantId) (log : List Entry) (b n later : ℕ) (start : Start)
        → Genuine reading params log
        → n ≤ later
        → later ≤ length log
        → IsBase params (inbox reading p (take n log)) b
        → IsStart reading (inbox reading p (take n log)) b start
        → AnswersAlike reading params p (inbox reading p (take later log))
        (silent_front b (last_time (take b (inbox reading p (take n log)))) ++ drop b (inbox reading p (take later log))) b start }
{}

/// A new participant has forgotten nothing: it begins at the base 0 with no contracts, and answers what the protocol says of its inbox.
pub fn new_participants_have_forgotten_nothing()
    ensures base { (params : Params) (items : List Item) → IsBase params items 0 }
    ensures start { (reading : Reading) (items : List Item) → IsStart reading items 0 no_start }
    ensures front { (time : ℕ) (items : List Item) → silent_front 0 time ++ drop 0 items ≡ items }
    ensures status { (reading : Reading) (items : List Item) (k : ℕ) (c : Hash) → status_kept reading no_start items k c ≡ status_in_inbox reading items k c }
    ensures active { (reading : Reading) (p : ParticipantId) (items : List Item) (n : ℕ)
        → active_kept reading p no_start items n ≡ node_active reading p items n }
    ensures owed { (reading : Reading) (params : Params) (p : ParticipantId) (items : List Item) (k : ℕ)
        → verdicts_kept reading params p no_start items k ≡ verdicts_owed reading params p items k }
{}

/// Of the contracts that an inbox leaves at a base b, those with a hosted stakeholder are the active ones there.
pub fn starts_have_the_active_contracts()
    ensures { (reading : Reading) (p : ParticipantId) (items : List Item) (b : ℕ) (start : Start)
        → IsStart reading items b start
        → node_active reading p items b ≡ filter (λ (row : ActiveRow). is_stakeholder_hosted reading p row.known.instance) start.active }
{}

/// Every participant's inbox of a log is orderly, as the laws above ask, where the log's times follow one another and each of its verdicts is the
/// mediator's decision, the first on its request and not past the decision time (`Timely`). So it is of every genuine log.
pub fn inboxes_are_orderly()
    ensures { (reading : Reading) (params : Params) (p : ParticipantId) (log : List Entry)
        → Timely params log
        → IsOrderly params (inbox reading p log) }
{}

/// The base of an inbox is a base, and the greatest of all.
pub fn base_is_greatest()
    ensures base { (params : Params) (items : List Item) → IsBase params items (Base.base params items) }
    ensures greatest { (params : Params) (items : List Item) (n : ℕ) → IsBase params items n → n ≤ Base.base params items }
{}

/// What is read later comes behind what is kept of an inbox from b on, where b isn't behind its end (`behind`). In an orderly inbox with a base b a
/// verdict that stands at b or behind it is on a request that stands there, too, and so is kept.
pub fn pruned_inboxes_are_read_on()
    ensures behind { (b time : ℕ) (items more : List Item)
        → b ≤ length items
        → silent_front b time ++ drop b (items ++ more) ≡ silent_front b time ++ drop b items ++ more }
    ensures verdicts { (params : Params) (items : List Item) (b i : ℕ) (item : Item) (v : Verdict)
        → IsOrderly params items
        → IsBase params items b
        → b ≤ i
        → slice_get items i ≡ Some item
        → verdict_in item.content ≡ Some v
        → b ≤ v.request }
{}

/// What a start and the items that are kept of an orderly inbox from its base b on leave at a later place n (`next`) is what the whole inbox leaves
/// there, and the base of what is kept is that of the whole, so that an inbox may be pruned again.
pub fn pruned_inboxes_are_pruned_again()
    ensures start { (reading : Reading) (params : Params) (items : List Item) (b n : ℕ) (start next : Start)
        → IsOrderly params items
        → IsBase params items b
        → IsStart reading items b start
        → b ≤ n
        → GoesOn reading (silent_front b (last_time (take b items)) ++ drop b items) n start next
        → IsStart reading items n next }
    ensures base { (params : Params) (items : List Item) (b : ℕ)
        → IsOrderly params items
        → IsBase params items b
        → Base.base params (silent_front b (last_time (take b items)) ++ drop b items) ≡ Base.base params items }
{}

/// The times of the forgotten items may be any others (`times`) that are, as the old ones, no later than the decision time of any request that is kept,
/// as long as the time before the base is the same: the answers are alike all the same.
pub fn times_below_the_base_make_no_difference()
    ensures { (reading : Reading) (params : Params) (p : ParticipantId) (whole kept : List Item) (b : ℕ) (start : Start) (times : List ℕ)
        → length times ≡ b
        → ((m : ℕ) → b ≤ m → is_received_at kept m ≡ true → Quiet (decision_time_in params kept m) times kept)
        → last_time (take b (retime times kept)) ≡ last_time (take b kept)
        → AnswersAlike reading params p whole kept b start
        → AnswersAlike reading params p whole (retime times kept) b start }
{}

/// Where a pruned inbox answers alike (`AnswersAlike`), and claims and responses agree from the base b on (`DutiesAlike`), the place that is claimed
/// next and the response that is sent next are the same.
pub fn claims_and_responses_are_alike()
    ensures claim { (reading : Reading) (params : Params) (p : ParticipantId) (b : ℕ) (start : Start) (whole kept : NodeState)
        → AnswersAlike reading params p whole.items kept.items b start
        → DutiesAlike reading p b whole kept
        → next_claim reading params p kept ≡ next_claim reading params p whole }
    ensures response { (reading : Reading) (params : Params) (p : ParticipantId) (b : ℕ) (start : Start) (whole kept : NodeState)
        → AnswersAlike reading params p whole.items kept.items b start
        → DutiesAlike reading p b whole kept
        → outbox_head params kept ≡ outbox_head params whole }
{}

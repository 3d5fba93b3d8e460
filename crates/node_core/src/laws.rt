//! Laws of a participant's calls, as the clauses of functions that do nothing.
ghost use Rattle.std.specs.Prelude.{◌≡◌, ◌+◌, ◌<◌, ◌≤◌, ◌^◌, ◌++◌, ◌∷◌, [], ℕ, Bool, false, true, List, Some, length, take};
ghost use Rattle.world_model.specs.Messages.{Entry};
ghost use Rattle.world_model.specs.Machine.{Machine, GenuineLog};
ghost use Rattle.world_model.specs.Node.{claim, finish, next_claim, outbox_head, owed_at, owes_at, put_back, read_entry, sent, waits_at, with_flag};
ghost use Rattle.node_state.specs.declared.node_state.NodeState.{NodeState as State};
ghost use Rattle.canton_model.specs.Genuine.{Genuine};
ghost use Rattle.canton_model.specs.Inbox.{Item, inbox};
ghost use Rattle.pruned_inbox.specs.Alike.{AnswersAlike};
ghost use Rattle.pruned_inbox.specs.Base;
ghost use Rattle.pruned_inbox.specs.Base.{IsBase};
ghost use Rattle.pruned_inbox.specs.Start.{GoesOn, Start};
ghost use Rattle.world_model.specs.Lawful.{NodeHas};
ghost use Rattle.world_model.specs.Places.{has_place};
ghost use Rattle.ledger_terms.specs.declared.topology.Topology.{Topology};
ghost use Rattle.lang_eval.specs.Found.{Packages};
ghost use Rattle.lang_eval.specs.Named.{AreKnown};
ghost use Rattle.framed_form.specs.FramedReading.{framed_reading};
ghost use Rattle.interpret.specs.NamedParties.{parties_in_contracts};
ghost use Rattle.sealed_form.specs.Within.{is_hosted};
ghost use Rattle.node_inbox.specs.InboxState.{decided_since};
ghost use Rattle.node_core.specs.Answers.{AreAlike, IsOf, answers_of};
ghost use Rattle.node_core.specs.Participant.{CanRead, HasForgottenNothing, HasRead, IsDecidedSince, IsPrunedTo, Participant, is_decided_there, items_of};
ghost use Rattle.node_core.specs.Participant.{next_place, next_response, owed_there, owes_there, params_of, pruned_at, reading_of};
ghost use Rattle.node_core.specs.Participant.{response_there, whole_state, with_state};
ghost use Rattle.node_core.specs.OverLog.{HasInbox};
ghost use Rattle.node_core.specs.States.{IsLawful, IsStateOf, MayBegin, begun_again, items_in, owner_of, start_in};
ghost use Rattle.node_core.specs.Preparing.{offered, offered_by};
ghost use Rattle.node_core.specs.Views.{base_if, view_from, view_of, view_over};

/// Two participants that are alike (`AreAlike`) have equal answers (`Answers`). With equal outboxes they send the same response next, too. Whether a
/// job is unfinished hangs on the unfinished places alone.
pub fn nodes_answer_alike()
    ensures answers { (a b : Participant) → AreAlike a b → answers_of a ≡ answers_of b }
    ensures sends { (a b : Participant) → AreAlike a b → a.state.outbox ≡ b.state.outbox → next_response a ≡ next_response b }
    ensures unfinished { (a b : Participant) (k : ℕ) → a.state.unfinished ≡ b.state.unfinished
        → has_place a.state.unfinished k ≡ has_place b.state.unfinished k }
{}

/// What `HasRead` says of a participant and the entries that it has read is so after each of its calls, too, and allows it to read the next
/// entry of a genuine log. What it owes to a request that it has read stays the same when it reads on.
pub fn node_keeps()
    ensures can_read { (m : Machine) (p : Participant) (before : List Entry) (entry : Entry)
        → IsOf m p
        → HasRead m before p
        → GenuineLog m (before ++ entry ∷ [])
        → CanRead p (before ++ entry ∷ []) }
    ensures read { (m : Machine) (p : Participant) (before : List Entry) (entry : Entry)
        → IsOf m p
        → HasRead m before p
        → GenuineLog m (before ++ entry ∷ [])
        → HasRead m (before ++ entry ∷ []) (with_state p (read_entry (reading_of p) p.me p.state before entry)) }
    ensures owed { (p : Participant) (before : List Entry) (entry : Entry) (k : ℕ)
        → k < length (items_of p)
        → owed_there (with_state p (read_entry (reading_of p) p.me p.state before entry)) k ≡ owed_there p k }
    ensures claim { (m : Machine) (p : Participant) (read : List Entry) (k : ℕ)
        → IsOf m p
        → HasRead m read p
        → next_place p ≡ Some k
        → HasRead m read (with_state p (claim p.state k)) }
    ensures finish { (m : Machine) (p : Participant) (read : List Entry) (k : ℕ)
        → IsOf m p
        → HasRead m read p
        → owes_there p k ≡ true
        → HasRead m read (with_state p (finish p.state (response_there p k))) }
    ensures sent { (m : Machine) (p : Participant) (read : List Entry) (k : ℕ) → HasRead m read p → HasRead m read (with_state p (sent p.state k)) }
    ensures put_back { (m : Machine) (p : Participant) (read : List Entry) (k : ℕ) → HasRead m read p
        → HasRead m read (with_state p (put_back p.state k)) }
    ensures flag { (m : Machine) (p : Participant) (read : List Entry) (paused : Bool) → HasRead m read p
        → HasRead m read (with_state p (with_flag p.state paused)) }
{}

/// What a participant that has read a genuine log offers to its submissions names only parties of the topology.
pub fn node_offers_known_parties()
    ensures { (m : Machine) (p : Participant) (read : List Entry)
        → IsOf m p
        → HasRead m read p
        → GenuineLog m read
        → AreKnown (is_hosted p.topology) (parties_in_contracts (offered_by p)) }
{}

/// A participant that is pruned to its base answers whatever is asked of places from there on as one with the whole inbox.
pub fn pruned_participants_answer_alike()
    ensures { (whole : List Item) (p : Participant)
        → IsPrunedTo whole p
        → AnswersAlike (reading_of p) (params_of p) p.me whole (items_of p) p.base p.start }
{}

/// What is reported of a participant that restarted is what it would know with the whole inbox, without the commits and the withheld places below its
/// base. Of one that didn't restart, and has the base 0, it is all of that.
pub fn restarted_participants_know_the_rest()
    ensures { (whole : List Item) (p : Participant) (restarted : Bool)
        → IsPrunedTo whole p
        → (restarted ≡ false → p.base ≡ 0)
        → view_of restarted p ≡ view_from (base_if restarted p.base) (view_over (reading_of p) (params_of p) p.me whole) }
{}

/// A participant that was pruned may be pruned again, at any place from its base on below which every request is decided: it is then as it
/// would be, had it been pruned there at once.
pub fn pruned_participants_are_pruned_again()
    ensures { (whole : List Item) (p : Participant) (b : ℕ) (next : Start)
        → IsPrunedTo whole p
        → p.base ≤ b
        → IsBase (params_of p) (items_of p) b
        → GoesOn (reading_of p) (items_of p) b p.start next
        → IsPrunedTo whole (pruned_at b next p) }
{}

/// A participant that begins again from p's state keeps the whole inbox that p keeps, pruned to its base, and owes verdicts to each request to which a
/// response waits (`pruned`); it has p's items, and has read the entries that p has read. Where p has no unfinished job and owes verdicts wherever a
/// response waits, it claims and sends next what p with the whole inbox would.
pub fn restarted_participants_are_pruned()
    ensures pruned { (whole : List Item) (p : Participant) (state : State)
        → IsPrunedTo whole p
        → IsStateOf p state
        → HasInbox whole (begun_again p.topology p.packages state) }
    ensures items { (whole : List Item) (p : Participant) (state : State)
        → IsPrunedTo whole p
        → IsStateOf p state
        → items_of (begun_again p.topology p.packages state) ≡ items_of p }
    ensures read { (m : Machine) (p : Participant) (read : List Entry) (state : State)
        → HasRead m read p
        → IsStateOf p state
        → HasRead m read (begun_again p.topology p.packages state) }
    ensures claim { (whole : List Item) (p : Participant) (state : State)
        → IsPrunedTo whole p
        → IsStateOf p state
        → p.state.unfinished ≡ []
        → ((k : ℕ) → waits_at p.state.outbox k ≡ true → owes_at (reading_of p) p.me whole k ≡ true)
        → next_place (begun_again p.topology p.packages state) ≡ next_claim (reading_of p) (params_of p) p.me (whole_state p whole) }
    ensures response { (whole : List Item) (p : Participant) (state : State)
        → IsPrunedTo whole p
        → IsStateOf p state
        → p.state.unfinished ≡ []
        → ((k : ℕ) → waits_at p.state.outbox k ≡ true → owes_at (reading_of p) p.me whole k ≡ true)
        → next_response (begun_again p.topology p.packages state) ≡ outbox_head (params_of p) (whole_state p whole) }
    ensures put_back { (p : Participant) (state : State) (k : ℕ)
        → IsStateOf p state
        → has_place p.state.unfinished k ≡ true
        → waits_at p.state.outbox k ≡ false
        → IsStateOf (with_state p (put_back p.state k)) state }
{}

/// The state of a participant that has read a genuine log, and is pruned to its base, is lawful. So is a lawful state that is pruned, and a participant
/// may begin again from each lawful state. The clauses `responses` and `same` are for `prune` of snapshot_store: who begins again from a state may
/// stand for the state's participant, but for the responses, which the pruned state takes from the state.
pub fn lawful_states_may_begin()
    ensures lawful { (p : Participant) (log : List Entry) (state : State)
        → length log < 2 ^ 63
        → Genuine (reading_of p) (params_of p) log
        → IsPrunedTo (inbox (reading_of p) p.me log) p
        → IsStateOf p state
        → IsLawful p.topology p.packages state }
    ensures pruned { (topology : Topology) (packages : Packages) (state pruned : State)
        → IsLawful topology packages state
        → pruned.base ≡ Base.base topology.params (items_in topology state)
        → GoesOn (framed_reading topology packages) (items_in topology state) pruned.base (start_in state) (start_in pruned)
        → IsStateOf (pruned_at pruned.base (start_in pruned) (owner_of topology packages state)) pruned
        → IsLawful topology packages pruned }
    ensures responses { (topology : Topology) (packages : Packages) (state pruned : State)
        → IsLawful topology packages state
        → pruned.base ≡ Base.base topology.params (items_in topology state)
        → IsStateOf (pruned_at pruned.base (start_in pruned) (begun_again topology packages state)) pruned
        → IsStateOf (pruned_at pruned.base (start_in pruned) (owner_of topology packages state)) (record pruned { outbox = state.outbox }) }
    ensures same { (topology : Topology) (packages : Packages) (state : State) (whole : List Item)
        → IsPrunedTo whole (owner_of topology packages state)
        → IsPrunedTo whole (begun_again topology packages state) }
    ensures begins { (topology : Topology) (packages : Packages) (state : State)
        → IsLawful topology packages state
        → MayBegin topology packages state }
{}

/// A participant that has forgotten nothing has the whole inbox, and it owes, offers and knows what the protocol says of that inbox.
pub fn participants_have_whole_inboxes()
    ensures kept { (whole : List Item) (p : Participant)
        → p.base ≡ 0
        → IsPrunedTo whole p
        → items_of p ≡ whole }
    ensures has { (m : Machine) (p : Participant) (read : List Entry)
        → IsOf m p
        → HasForgottenNothing p
        → GenuineLog m read
        → NodeHas m p.me read p.state
        → HasRead m read p }
    ensures can_read { (p : Participant) (list : List Entry)
        → HasForgottenNothing p
        → length list ≡ length (items_of p) + 1
        → Genuine (reading_of p) (params_of p) list
        → items_of p ≡ inbox (reading_of p) p.me (take (length (items_of p)) list)
        → CanRead p list }
    ensures owed { (p : Participant) (k : ℕ)
        → HasForgottenNothing p
        → owed_there p k ≡ owed_at (reading_of p) (params_of p) p.me (items_of p) k }
    ensures offered { (p : Participant) → HasForgottenNothing p → offered_by p ≡ offered (reading_of p) p.me (items_of p) }
    ensures views { (p : Participant) → HasForgottenNothing p → view_of false p ≡ view_over (reading_of p) (params_of p) p.me (items_of p) }
{}

/// Where a request is decided at the cursor, `decided_since` is the least place at which it is decided.
pub fn decided_since_is_least()
    ensures { (p : Participant) (k : ℕ) → is_decided_there p k ≡ true → IsDecidedSince p k (decided_since (params_of p) (items_of p) k) }
{}

//! What the mediator's calls do, in terms of the log.
ghost use Rattle.std.specs.Prelude.{◌≡◌, ◌<◌, ℕ, List, [], ◌∷◌, ◌++◌, Option, None, IfNone, IfSome};
ghost use Rattle.canton_model.specs.Log.{Params};
ghost use Rattle.canton_model.specs.Mediation.{scan};
ghost use Rattle.canton_model.specs.Timeline.{timeline_of, verdict_on};
ghost use Rattle.world_model.specs.Messages.{Entry as EntryValue};
ghost use Rattle.canton_model.specs.declared.verdict.Verdict.{Verdict as VerdictValue};
ghost use Rattle.world_model.specs.Machine.{Machine, GenuineLog};
ghost use Rattle.world_model.specs.Fits.{IsDecision};
ghost use Rattle.world_model.specs.Mediator.{MediatorState, new_mediator, read_by_mediator, next_verdict, give_back};
ghost use Rattle.world_model.specs.Places.{without_place};
ghost use Rattle.mediator.specs.KeptCases.{KeptMediator, Keeps, Knows, known_decision, with_verdict_taken};
ghost use Rattle.mediator.specs.Order.{HasGiven, IsFirstDue, NothingIsDue};

/// What a mediator knows of the log that it has read: at first nothing, an entry more after each read, and the same after a verdict is taken or given
/// back. Over a genuine log each verdict that it takes, and its decision on each request on which no verdict stands in the log, is the one of `scan`.
pub fn mediator_knows()
    ensures new { (m : Machine) (kept : KeptMediator) → kept.params ≡ m.params → Keeps kept new_mediator → Knows m [] kept }
    ensures read { (m : Machine) (log : List EntryValue) (before after : KeptMediator) (entry : EntryValue)
        → Knows m log before
        → after.params ≡ before.params
        → ((state : MediatorState) → Keeps before state → Keeps after (read_by_mediator before.params state entry))
        → Knows m (log ++ entry ∷ []) after }
    ensures take { (m : Machine) (log : List EntryValue) (before after : KeptMediator) (verdict : Option VerdictValue)
        → GenuineLog m log
        → Knows m log before
        → after.params ≡ before.params
        → ((state : MediatorState) → Keeps before state → verdict ≡ next_verdict state)
        → ((state : MediatorState) → Keeps before state → Keeps after (with_verdict_taken state verdict))
        → IfSome verdict (λ v. IsDecision m.params log v) × Knows m log after }
    ensures give_back { (m : Machine) (log : List EntryValue) (before after : KeptMediator) (k : ℕ)
        → Knows m log before
        → after.params ≡ before.params
        → ((state : MediatorState) → Keeps before state → Keeps after (give_back state k))
        → Knows m log after }
    ensures decision { (m : Machine) (log : List EntryValue) (kept : KeptMediator) (k : ℕ)
        → GenuineLog m log
        → Knows m log kept
        → verdict_on k (timeline_of log) ≡ None
        → known_decision k kept.cases ≡ scan m.params log k }
{}

/// What a mediator takes, by the genuine log that it has read and the places of the requests whose verdicts count as taken: the decision on the first
/// request that is due, and none only where nothing is. A verdict counts as taken until it is given back. So, unless it is, each is taken once, and
/// over one log they are taken by rising places.
pub fn verdicts_are_taken_in_order()
    ensures new { (m : Machine) (kept : KeptMediator) → kept.params ≡ m.params → Keeps kept new_mediator → HasGiven m [] [] kept }
    ensures read { (m : Machine) (log : List EntryValue) (given : List ℕ) (before after : KeptMediator) (entry : EntryValue)
        → HasGiven m log given before
        → after.params ≡ before.params
        → ((state : MediatorState) → Keeps before state → Keeps after (read_by_mediator before.params state entry))
        → HasGiven m (log ++ entry ∷ []) given after }
    ensures first { (m : Machine) (log : List EntryValue) (given : List ℕ) (before after : KeptMediator) (verdict : Option VerdictValue)
        → GenuineLog m log
        → HasGiven m log given before
        → after.params ≡ before.params
        → ((state : MediatorState) → Keeps before state → verdict ≡ next_verdict state)
        → ((state : MediatorState) → Keeps before state → Keeps after (with_verdict_taken state verdict))
        → IfSome verdict (λ v. IsFirstDue m.params log given v × HasGiven m log (v.request ∷ given) after) }
    ensures none { (m : Machine) (log : List EntryValue) (given : List ℕ) (before after : KeptMediator) (verdict : Option VerdictValue)
        → GenuineLog m log
        → HasGiven m log given before
        → after.params ≡ before.params
        → ((state : MediatorState) → Keeps before state → verdict ≡ next_verdict state)
        → ((state : MediatorState) → Keeps before state → Keeps after (with_verdict_taken state verdict))
        → IfNone verdict (NothingIsDue m.params log given × HasGiven m log given after) }
    ensures give_back { (m : Machine) (log : List EntryValue) (given : List ℕ) (before after : KeptMediator) (k : ℕ)
        → HasGiven m log given before
        → after.params ≡ before.params
        → ((state : MediatorState) → Keeps before state → Keeps after (give_back state k))
        → HasGiven m log (without_place k given) after }
    ensures rising { (params : Params) (log : List EntryValue) (given : List ℕ) (one next : VerdictValue)
        → IsFirstDue params log given one
        → IsFirstDue params log (one.request ∷ given) next
        → one.request < next.request }
{}

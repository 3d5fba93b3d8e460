//! The laws of what rules cause, as the clauses of functions that do nothing.
ghost use Rattle.std.specs.Prelude.{◌≡◌, ◌≢◌, ◌≤◌, ◌++◌, ◌∷◌, ◌+◌, ℕ, true, [], length, slice_get, List, Some, All, Contains};
ghost use Rattle.canton_model.specs.Log.{Params, request_at};
ghost use Rattle.canton_model.specs.Reading.{Reading};
ghost use Rattle.world_model.specs.Machine.{Machine, IsMachine};
ghost use Rattle.world_model.specs.Messages.{Entry, Request};
ghost use Rattle.world_model.specs.Rounds.{Sent, Why};
ghost use Rattle.world_model.specs.Plain.{PlainRounds};
ghost use Rattle.trigger_model.specs.TwoParts.{RoundParts, RunInParts, parts_of};
ghost use Rattle.trigger_rules.specs.declared.caused.Caused.{Caused};
ghost use Rattle.ledger_terms.specs.declared.active_row.ActiveRow.{ActiveRow};
ghost use Rattle.trigger_rules.specs.Firing.{Fires, contracts_of};
ghost use Rattle.trigger_rules.specs.Ids.{is_rule_command};
ghost use Rattle.trigger_model.specs.CausedRequests.{HasOwnIds, RunWithRules};
ghost use Rattle.trigger_rules.specs.declared.rule.Rule.{Rule};
ghost use Rattle.trigger_rules.specs.Kept.{AreNamed};
ghost use Rattle.trigger_model.specs.CausedRun.{AreAskedSo, CausedHolds, FiredRound, HasReadTo, RoundsFire, RulesFire};
ghost use Rattle.trigger_model.specs.CausedRun.{active_at_clean, all_caused, fired_on};

use trigger_rules::Answering;

/// Rounds of two parts, as one thread plays them from the empty log on, are a run in parts.
pub fn one_thread_parts<F>()
    ensures { (m : Machine) (why : Why F) (rounds : List (RoundParts F)) (log : List Entry)
        → IsMachine m
        → PlainRounds m why 0 [] (parts_of rounds) log
        → RunInParts m why log rounds }
{}

/// Where rules, no two of one name, are asked round after round (`RoundsFire`), what they cause is right as a run says it (`CausedHolds`). `answer` is
/// who answers for the rules.
pub fn rules_cause<A: Answering>()
    ensures { (answer : A) (rules : List Rule) (reading : Reading) (params : Params) (log : List Entry) (rounds : List FiredRound)
        → AreNamed rules
        → RoundsFire (A.may_answer answer) reading params log rules [] rounds
        → CausedHolds (A.may_answer answer) rules reading params log rounds }
{}

/// Each request of a run with rules whose id is kept for a rule of its sender is the request of a submission that a rule caused, and that was answered
/// Sent with the request's place. It needs that no submission and no raw request of the script has such an id (`HasOwnIds`).
pub fn requests_are_caused<F, A: Answering>()
    ensures { (m : Machine) (why : Why F) (answer : A) (rules : List Rule) (log : List Entry) (rounds : List (RoundParts F)) (fired : List FiredRound)
        (k : ℕ) (request : Request)
        → IsMachine m
        → RunWithRules m why (A.may_answer answer) rules log rounds fired
        → All (HasOwnIds rules) rounds
        → request_at log k ≡ Some request
        → is_rule_command rules request.sender request.command ≡ true
        → (round : FiredRound) × Contains fired round × (one : Caused) × Contains round.caused one × (x : RoundParts F) × Contains rounds x
        × (read_to : ℕ) × Contains x.caused_results (one.submission, Sent k read_to) }
{}

/// No rules cause nothing (`none`); and one more rule that is asked behind others adds what it causes to what they caused (`more`).
pub fn rules_one_by_one<A: Answering>()
    ensures none { (answer : A) (reading : Reading) (params : Params) (log : List Entry) (round : FiredRound) (earlier : List Caused)
        → RulesFire (A.may_answer answer) reading params log round earlier [] [] }
    ensures more { (answer : A) (reading : Reading) (params : Params) (log : List Entry) (round : FiredRound) (earlier : List Caused)
        (rules : List Rule) (rule : Rule) (caused own : List Caused) (n : ℕ)
        → RulesFire (A.may_answer answer) reading params log round earlier rules caused
        → HasReadTo round rule.participant n
        → Fires (A.may_answer answer) rule round.number round.now (fired_on rule.name earlier) (active_at_clean reading params rule.participant n log) own
        → RulesFire (A.may_answer answer) reading params log round earlier (rules ++ rule ∷ []) (caused ++ own) }
{}

/// One more round in which rules are asked may follow others: all together they are rounds in which rules were asked in order.
pub fn rounds_one_by_one<A: Answering>()
    ensures { (answer : A) (reading : Reading) (params : Params) (log : List Entry) (rules : List Rule) (rounds : List FiredRound) (round : FiredRound)
        → RoundsFire (A.may_answer answer) reading params log rules [] rounds
        → RulesFire (A.may_answer answer) reading params log round (all_caused rounds) rules round.caused
        → RoundsFire (A.may_answer answer) reading params log rules [] (rounds ++ round ∷ []) }
{}

/// A rule that was asked has then fired also on the contracts of what it caused, and each other rule on those on which it had before.
pub fn fires_are_noted<A: Answering>()
    ensures own { (answer : A) (rule : Rule) (round now : ℕ) (fired : List (List ℕ)) (rows : List ActiveRow) (before own : List Caused)
        → Fires (A.may_answer answer) rule round now fired rows own
        → fired_on rule.name (before ++ own) ≡ fired_on rule.name before ++ contracts_of own }
    ensures others { (answer : A) (rule : Rule) (round now : ℕ) (fired : List (List ℕ)) (rows : List ActiveRow) (before own : List Caused) (name : List ℕ)
        → Fires (A.may_answer answer) rule round now fired rows own
        → name ≢ rule.name
        → fired_on name (before ++ own) ≡ fired_on name before }
{}

/// What rules caused in a round, as a log that reaches to the round's end has it, they caused as every longer log has it.
pub fn fires_stay<A: Answering>()
    ensures { (answer : A) (reading : Reading) (params : Params) (log more : List Entry) (round : FiredRound) (earlier : List Caused)
        (rules : List Rule) (caused : List Caused)
        → round.end ≤ length log
        → RulesFire (A.may_answer answer) reading params log round earlier rules caused
        → RulesFire (A.may_answer answer) reading params (log ++ more) round earlier rules caused }
{}

/// Where the first `count` of the rules, no two of one name, were asked in a round, and `fired` gives the contracts on which each has fired, the next
/// rule may be asked. Then the first `count + 1` were asked, and `fired'` gives these contracts.
pub fn rules_are_asked_in_order<A: Answering>()
    ensures { (answer : A) (reading : Reading) (params : Params) (log : List Entry) (round : FiredRound) (earlier : List Caused) (rules : List Rule)
        (fired fired' : ℕ → List (List ℕ)) (count n : ℕ) (caused own : List Caused) (rule : Rule)
        → AreNamed rules
        → AreAskedSo (A.may_answer answer) reading params log round earlier rules fired count caused
        → slice_get rules count ≡ Some rule
        → HasReadTo round rule.participant n
        → Fires (A.may_answer answer) rule round.number round.now (fired count) (active_at_clean reading params rule.participant n log) own
        → fired' count ≡ fired count ++ contracts_of own
        → ((other : ℕ) → other ≢ count → fired' other ≡ fired other)
        → AreAskedSo (A.may_answer answer) reading params log round earlier rules fired' (count + 1) (caused ++ own) }
{}

//! What a yes says, and which logs can be dumped and are judged yes, as the clauses of functions that do nothing.
ghost use Rattle.std.specs.Prelude.{◌≡◌, ◌-◌, ◌<◌, ◌≤◌, ◌^◌, ℕ, true, List, Ok, Some, All, length};
ghost use Rattle.ledger_terms.specs.declared.topology.Topology.{Topology};
ghost use Rattle.ledger_model.specs.Authority.{is_commit_authorised};
ghost use Rattle.ledger_model.specs.Conformance.{Conforms};
ghost use Rattle.ledger_model.specs.Consistency.{Consistent};
ghost use Rattle.ledger_model.specs.Forest.{Commit, ledger_acts};
ghost use Rattle.ledger_model.specs.Language.{roles_of};
ghost use Rattle.canton_model.specs.Genuine.{Genuine};
ghost use Rattle.canton_model.specs.Ledger.{ledger, whole_at};
ghost use Rattle.canton_model.specs.Timeline.{is_approved_in, timeline_of};
ghost use Rattle.canton_model.specs.declared.entry.Entry.{Entry};
ghost use Rattle.interpret.specs.Language.{the_language};
ghost use Rattle.lang_eval.specs.Found.{Packages};
ghost use Rattle.framed_form.specs.Collisions.{Collides};
ghost use Rattle.framed_form.specs.FramedReading.{framed_reading};
ghost use Rattle.world_model.specs.Machine.{IsMachine, Machine};
ghost use Rattle.world_model.specs.Rounds.{Why};
ghost use Rattle.trigger_model.specs.CausedRequests.{HasOwnIds, RunWithRules};
ghost use Rattle.trigger_model.specs.CausedRun.{FiredRound};
ghost use Rattle.trigger_model.specs.TwoParts.{RoundParts};
ghost use Rattle.script_read.specs.Kept.{IsAccepted};
ghost use Rattle.script_read.specs.Script.{script_in};
ghost use Rattle.script_read.specs.declared.script.Script.{Script};
ghost use Rattle.audit_model.specs.Judged.{approved_in};
ghost use Rattle.log_dump.specs.InRange.{IsBlock, IsLog, IsTyped};
ghost use Rattle.log_dump.specs.Spelling.{spell_dump};
ghost use Rattle.log_dump.specs.Spellable.{IsSpellableLog};
ghost use Rattle.log_audit.specs.Audits.{IsAudit, SpellsProperLog};
ghost use Rattle.log_audit.specs.RuleRuns.{AreOpened, UsesRulesRightly};
ghost use Rattle.log_audit.specs.Scripts.{most_of, script_of, standard_of};
ghost use Rattle.log_audit.specs.declared.answer.Audit.TheVariants.{Yes};

use trigger_rules::Answering;

/// The dump of a proper log is judged yes, with the number of its entries and of its approved requests.
pub fn dumps_of_proper_logs_are_judged_yes()
    ensures { (bytes : List ℕ) (spelled : SpellsProperLog script_of most_of standard_of bytes)
        → IsAudit script_of most_of standard_of bytes (Yes (length spelled.log) (approved_in spelled.log)) }
{}

/// A genuine log of a synchroniser with at most 255 participants has a spelling, where it has fewer than 2^32 entries: its requests are framed, and
/// framed requests have room.
pub fn genuine_logs_can_be_dumped()
    ensures { (topology : Topology) (packages : Packages) (log : List Entry)
        → length topology.hosts ≤ 255
        → Genuine (framed_reading topology packages) topology.params log
        → length log < 2 ^ 32
        → IsSpellableLog log }
{}

/// Where what is hashed in a log that is judged yes doesn't collide, its approved requests are one consistent ledger, and each commit of
/// it conforms to the script's packages and is authorised.
pub fn logs_that_are_judged_yes_are_ledgers()
    ensures consistent { (bytes : List ℕ) (spelled : SpellsProperLog script_of most_of standard_of bytes)
        → (Collides spelled.script.topology spelled.log → ⊥)
        → Consistent (ledger_acts (ledger (framed_reading spelled.script.topology spelled.script.checked) spelled.log)) }
    ensures lawful { (bytes : List ℕ) (spelled : SpellsProperLog script_of most_of standard_of bytes) (k : ℕ) (commit : Commit)
        → (Collides spelled.script.topology spelled.log → ⊥)
        → is_approved_in k (timeline_of spelled.log) ≡ true
        → whole_at (framed_reading spelled.script.topology spelled.script.checked) spelled.log k ≡ Some commit
        → Conforms (the_language spelled.script.checked) commit.roots
        × (is_commit_authorised (roles_of (the_language spelled.script.checked)) commit ≡ true) }
{}

/// A genuine log of a synchroniser with 1 to 255 participants is in range, where it has fewer than 2^32 entries, its times have eight bytes and its
/// commands are names: all participants that its messages name are there, and the numbers in its responses and verdicts have room.
pub fn genuine_logs_are_in_range()
    ensures { (topology : Topology) (packages : Packages) (log : List Entry)
        → 0 < length topology.hosts
        → length topology.hosts ≤ 255
        → Genuine (framed_reading topology packages) topology.params log
        → length log < 2 ^ 32
        → All IsTyped log
        → IsLog (length topology.hosts - 1) log }
{}

/// The dump of a genuine log of a script's synchroniser is judged yes, where the log has fewer than 2^32 entries, its times have eight bytes and its
/// commands are names, and each request of a rule is what that rule may cause.
pub fn genuine_logs_are_judged_yes()
    ensures { (bytes : List ℕ) (script : Script) (log : List Entry)
        → script_in bytes ≡ Ok script
        → IsAccepted script
        → IsBlock bytes
        → Genuine (framed_reading script.topology script.checked) script.topology.params log
        → length log < 2 ^ 32
        → All IsTyped log
        → UsesRulesRightly script log
        → IsAudit script_of most_of standard_of (spell_dump bytes log) (Yes (length log) (approved_in log)) }
{}

/// In the log of a run with rules each request of a rule is what that rule may cause, where no submission and no raw request has a command whose id is
/// kept for a rule, and each request of a submission that a rule caused was prepared for it. `answer` says what a rule does about a contract, `fired`
/// has each round as rules see it. So its dump is judged yes (`genuine_logs_are_judged_yes`).
pub fn runs_use_rules_rightly<F, A: Answering>()
    ensures { (m : Machine) (why : Why F) (answer : A) (script : Script) (log : List Entry) (rounds : List (RoundParts F)) (fired : List FiredRound)
        → IsMachine m
        → m.reading ≡ framed_reading script.topology script.checked
        → IsAccepted script
        → RunWithRules m why (A.may_answer answer) script.triggers log rounds fired
        → All (HasOwnIds script.triggers) rounds
        → AreOpened script log rounds
        → UsesRulesRightly script log }
{}

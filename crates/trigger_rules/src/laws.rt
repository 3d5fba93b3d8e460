//! The laws of rules, as the clauses of functions that do nothing.
ghost use Rattle.std.specs.Prelude.{◌≡◌, ◌<◌, ◌∷◌, [], ℕ, Bool, true, List, Contains};
ghost use Rattle.ledger_terms.specs.declared.command.Command.{Command};
ghost use Rattle.ledger_terms.specs.declared.known.Known.{Known};
ghost use Rattle.lang_eval.specs.HandedIn.{parties_in_commands};
ghost use Rattle.lang_eval.specs.Named.{AreKnown, parties_in_instance};
ghost use Rattle.trigger_rules.specs.declared.limits.TheConstants.{MOST_FIRES};
ghost use Rattle.trigger_rules.specs.declared.rule.Rule.{Rule};
ghost use Rattle.trigger_rules.specs.Firing.{command_id};
ghost use Rattle.trigger_rules.specs.Ids.{is_rule_command};
ghost use Rattle.trigger_rules.specs.Answers.{IsExerciseOf};

/// A command that exercises a contract as rules may (`IsExerciseOf`) names only parties that pass a test, where those that the contract's
/// fields name pass it.
pub fn exercises_name_known_parties()
    ensures { (test : List ℕ → Bool) (known : Known) (command : Command) → IsExerciseOf known command → AreKnown test (parties_in_instance known.instance)
        → AreKnown test (parties_in_commands (command ∷ [])) }
{}

/// The id of each command of a rule is kept for that rule: it is one of those that `is_rule_command` finds for its participant.
pub fn fired_ids_are_kept()
    ensures { (rules : List Rule) (rule : Rule) (before : ℕ) → Contains rules rule → before < MOST_FIRES
        → is_rule_command rules rule.participant (command_id rule.name before) ≡ true }
{}

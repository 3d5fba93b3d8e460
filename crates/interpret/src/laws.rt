//! The laws of the definitions, as the clauses of functions that do nothing.
ghost use Rattle.std.specs.Prelude.{◌≡◌, ℕ, Bool, true, List, Ok, Err};
ghost use Rattle.std.specs.Bool.{Decides};
ghost use Rattle.std.specs.List.{list_all};
ghost use Rattle.ledger_terms.specs.Forest.{NoRoots, Root, preorder};
ghost use Rattle.ledger_terms.specs.Trees.{Actions};
ghost use Rattle.ledger_terms.specs.declared.known.Known.{Known};
ghost use Rattle.ledger_terms.specs.declared.command.Command.{Command};
ghost use Rattle.lang_eval.specs.Parts.{PartyNames};
ghost use Rattle.ledger_model.specs.Conformance.{Conforms};
ghost use Rattle.interpret.specs.Ids.{Hash, is_authentic, is_authentic_contract};
ghost use Rattle.interpret.specs.Interpreted.{interp};
ghost use Rattle.interpret.specs.declared.command_fault.CommandFault.{CommandFault};
ghost use Rattle.interpret.specs.Keeping.{KeepsRules};
ghost use Rattle.interpret.specs.Stops.{StopsWith};
ghost use Rattle.interpret.specs.Tries.{is_tree_possible};
ghost use Rattle.interpret.specs.Wanted.{IsWanted};
ghost use Rattle.interpret.specs.Filled.{filling};
ghost use Rattle.interpret.specs.FilledTree.{IsFilled, FillStops};
ghost use Rattle.ledger_terms.specs.Drafts.{Drafts};
ghost use Rattle.ledger_terms.specs.declared.action.Action.{Action};
ghost use Rattle.ledger_model.specs.Language.{roles_of};
ghost use Rattle.lang_eval.specs.Found.{Packages};
ghost use Rattle.lang_eval.specs.Language.{roles_in};
ghost use Rattle.lang_eval.specs.Named.{AreKnown, parties_in_packages};
ghost use Rattle.lang_eval.specs.HandedIn.{parties_in_commands, parties_in_drafts};
ghost use Rattle.interpret.specs.NamedParties.{parties_in_contracts, parties_in_forest};
ghost use Rattle.interpret.specs.Language.{the_language};

/// The roles of an action are those that the packages give it, whatever the limits on sizes that the ledger's language has besides.
pub fn roles_are_those_of_packages()
    ensures { (packages : Packages) (action : Action) → roles_of (the_language packages) action ≡ roles_in packages action }
{}

/// What commands are interpreted to (`interp`) is the transaction that they ask for (`IsWanted`), and there is no other.
pub fn the_wanted_transaction_is_given()
    ensures given { (packages : Packages) (known : List Known) (seed : Hash) (act_as : PartyNames) (commands : List Command) (forest : Actions)
        → interp packages known seed act_as commands ≡ Ok forest
        → IsWanted packages known seed act_as commands forest }
    ensures wanted { (packages : Packages) (known : List Known) (seed : Hash) (act_as : PartyNames) (commands : List Command) (forest : Actions)
        → IsWanted packages known seed act_as commands forest
        → interp packages known seed act_as commands ≡ Ok forest }
{}

/// A wanted transaction conforms, is authorised by its requesters and keeps the limits.
pub fn wanted_transactions_keep_the_rules()
    ensures { (packages : Packages) (known : List Known) (seed : Hash) (act_as : PartyNames) (commands : List Command) (forest : Actions)
        → IsWanted packages known seed act_as commands forest
        → KeepsRules packages act_as forest }
{}

/// Commands are refused with a fault (by `interp`) exactly where they stop with it (`StopsWith`). So for each list of commands there is a
/// wanted transaction or a stop, and never both.
pub fn stops_are_given()
    ensures given { (packages : Packages) (known : List Known) (seed : Hash) (act_as : PartyNames) (commands : List Command) (fault : CommandFault)
        → interp packages known seed act_as commands ≡ Err fault
        → StopsWith packages known seed act_as commands fault }
    ensures stops { (packages : Packages) (known : List Known) (seed : Hash) (act_as : PartyNames) (commands : List Command) (fault : CommandFault)
        → StopsWith packages known seed act_as commands fault
        → interp packages known seed act_as commands ≡ Err fault }
{}

/// What drafts are filled to (`filling`) is the transaction that they ask for (`IsFilled`), and there is no other.
pub fn the_filled_transaction_is_given()
    ensures given { (known : List Known) (seed : Hash) (drafts : Drafts) (forest : Actions)
        → filling known seed drafts ≡ Ok forest
        → IsFilled known seed drafts forest }
    ensures wanted { (known : List Known) (seed : Hash) (drafts : Drafts) (forest : Actions)
        → IsFilled known seed drafts forest
        → filling known seed drafts ≡ Ok forest }
{}

/// Drafts are refused with a fault (by `filling`) exactly where they stop with it (`FillStops`).
pub fn filling_stops_are_given()
    ensures given { (known : List Known) (seed : Hash) (drafts : Drafts) (fault : CommandFault)
        → filling known seed drafts ≡ Err fault
        → FillStops known seed drafts fault }
    ensures stops { (known : List Known) (seed : Hash) (drafts : Drafts) (fault : CommandFault)
        → FillStops known seed drafts fault
        → filling known seed drafts ≡ Err fault }
{}

/// Where all known contracts are authentic, so is each action of a wanted transaction.
pub fn wanted_transactions_are_authentic()
    ensures { (packages : Packages) (known : List Known) (seed : Hash) (act_as : PartyNames) (commands : List Command) (forest : Actions)
        → list_all is_authentic_contract known ≡ true
        → IsWanted packages known seed act_as commands forest
        → list_all is_authentic (preorder forest) ≡ true }
{}

/// The test that `reexecute` makes of a tree (`is_tree_possible`) is true exactly where the tree conforms, whatever its root's seed is.
pub fn reexecution_decides_conformance()
    ensures { (packages : Packages) (seed : Hash) (action : Action) (consequences : Actions)
        → Decides (is_tree_possible packages action consequences)
        (Conforms (the_language packages) (Root (record { seed = seed; action = action }) consequences NoRoots)) }
{}

/// Each action of a wanted transaction names only parties that packages, commands and known contracts name. `is_party` is any test of
/// parties that these pass.
pub fn wanted_transactions_name_no_other_parties()
    ensures { (is_party : List ℕ → Bool) (packages : Packages) (known : List Known) (seed : Hash) (act_as : PartyNames)
        (commands : List Command) (forest : Actions)
        → AreKnown is_party (parties_in_packages packages)
        → AreKnown is_party (parties_in_contracts known)
        → AreKnown is_party (parties_in_commands commands)
        → IsWanted packages known seed act_as commands forest
        → AreKnown is_party (parties_in_forest forest) }
{}

/// Each action of a filled transaction names only parties that drafts and known contracts name. `is_party` is any test of parties that
/// these pass.
pub fn filled_transactions_name_no_other_parties()
    ensures { (is_party : List ℕ → Bool) (known : List Known) (seed : Hash) (drafts : Drafts) (forest : Actions)
        → AreKnown is_party (parties_in_contracts known)
        → AreKnown is_party (parties_in_drafts drafts)
        → IsFilled known seed drafts forest
        → AreKnown is_party (parties_in_forest forest) }
{}

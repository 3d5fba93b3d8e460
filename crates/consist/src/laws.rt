//! What breaking consistency is to the ledger model, as the clauses of functions that do nothing.
ghost use Rattle.std.specs.Prelude.{◌≡◌, ◌↔◌, ◌++◌, ◌∷◌, [], List, map};
ghost use Rattle.ledger_terms.specs.declared.act.Act.{Act};
ghost use Rattle.ledger_terms.specs.Trees.{Actions};
ghost use Rattle.ledger_model.specs.Forest.{Commit, acts, ledger_acts};
ghost use Rattle.ledger_model.specs.declared.commit.Commit.{Commit as CommitRoots};
ghost use Rattle.ledger_model.specs.Consistency.{Consistent};
ghost use Rattle.consist.specs.Breaks.{Breaks};
ghost use Rattle.consist.specs.First.{NoneShows, acts_in};
ghost use Rattle.consist.specs.Placed.{placed, placed_in, acts_of_parts, part_of};
ghost use Rattle.consist.specs.Rules.{IsUnordered};

/// A list of actions is consistent exactly where no action of it breaks consistency with those before it.
pub fn consistent_where_none_breaks()
    ensures { (all : List Act) → Consistent all ↔ NoneShows Breaks all }
{}

/// Behind a consistent list of actions one more action breaks consistency exactly where the list with it isn't consistent.
pub fn breaking_ends_consistency()
    ensures { (earlier : List Act) (a : Act) → Consistent earlier → Consistent (earlier ++ a ∷ []) ↔ (Breaks earlier a → ⊥) }
{}

/// Where a list of actions is consistent, no action of any stretch of it is unordered after those before it in the stretch. The transactions of a
/// ledger are such stretches.
pub fn consistent_transactions_are_ordered()
    ensures { (before actions after : List Act) → Consistent (before ++ (actions ++ after)) → NoneShows IsUnordered actions }
{}

/// The helpers that give actions their paths and places leave the actions as they are: those of a transaction, of a ledger's commits, and of a ledger
/// whose commits are taken without their requesters.
pub fn places_leave_actions()
    ensures transaction { (roots : Actions) → acts_in (placed roots) ≡ acts roots }
    ensures parts { (parts : List CommitRoots) → acts_in (placed_in parts) ≡ acts_of_parts parts }
    ensures ledger { (ledger : List Commit) → acts_of_parts (map part_of ledger) ≡ ledger_acts ledger }
{}

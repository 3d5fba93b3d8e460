//! Laws of checks, each the contract of a function with nothing to do.
ghost use Rattle.std.specs.Prelude.{◌≡◌, ◌≤◌, ℕ, Bool, true, All, Contains, IsSome, List, length};
ghost use Rattle.ledger_terms.specs.declared.act.Act.{Act};
ghost use Rattle.ledger_model.specs.Forest.{acts};
ghost use Rattle.ledger_model.specs.Opening.{OpenedView};
ghost use Rattle.ledger_model.specs.Terms.{Hash, ParticipantId, Path, id_of, instance_of};
ghost use Rattle.ledger_model.specs.declared.status.Status.{Status};
ghost use Rattle.canton_model.specs.Inbox.{has_hosted_stakeholder};
ghost use Rattle.canton_model.specs.Reading.{Reading};
ghost use Rattle.lang_eval.specs.Found.{Packages};
ghost use Rattle.lang_eval.specs.Language.{has_roles};
ghost use Rattle.wire_form.specs.Spellable.{IsSpellableInstance};
ghost use Rattle.view_split.specs.Filled.{AreFilled};
ghost use Rattle.view_split.specs.Numbered.{map_forest};
ghost use Rattle.view_split.specs.Placed.{placed_forest, shown_by};
ghost use Rattle.view_split.specs.declared.split_view.SplitView.{SplitView};
ghost use Rattle.view_split.specs.declared.opened_tree.OpenedTree.{OpenedTree};
ghost use Rattle.confirm_reply.specs.Facts.{AreKnown, IsFactOf, fact_on};
ghost use Rattle.confirm_reply.specs.Opened.{CanBeChecked};
ghost use Rattle.confirm_reply.specs.declared.id_facts.IdFacts.{IdFacts};

/// Each opened view can be checked where all opened instances have spellings, the view's core has no more actions than a verdict can number, and either
/// each opened view has as many holes as views stand directly below it, or all opened actions have roles.
pub fn opened_views_can_be_checked()
    ensures filled { (packages : Packages) (tree : OpenedTree) (view : OpenedView) → Contains (shown_by tree).views view
        → AreFilled (map_forest (λ (v : Path × SplitView). v.1) (placed_forest tree.views))
        → All (λ (act : Act). IsSpellableInstance (instance_of act.action)) (acts (shown_by tree).roots)
        → length view.core ≤ 65536 → CanBeChecked packages (shown_by tree) view }
    ensures sure { (packages : Packages) (tree : OpenedTree) (view : OpenedView) → Contains (shown_by tree).views view
        → All (λ (act : Act). has_roles packages act.action ≡ true) (acts (shown_by tree).roots)
        → All (λ (act : Act). IsSpellableInstance (instance_of act.action)) (acts (shown_by tree).roots)
        → length view.core ≤ 65536 → CanBeChecked packages (shown_by tree) view }
{}

/// Facts that are each true of what is known of contracts say all that the check of a core asks, where there is one on each contract with a hosted
/// stakeholder among the actions of the core that have roles.
pub fn facts_of_what_is_known_say_it()
    ensures { (reading : Reading) (p : ParticipantId) (known : Hash → Status) (held : Hash → Bool) (facts : List IdFacts) (core : List (ℕ × Act))
        → All (IsFactOf known held) facts
        → ((a : ℕ × Act) → Contains core a → (reading.language).has_roles (a.1).action ≡ true → has_hosted_stakeholder reading p a.1 ≡ true
        → IsSome (fact_on facts (id_of (a.1).action)))
        → AreKnown reading p known held facts core }
{}

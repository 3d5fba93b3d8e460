//! What authority is over whole trees, as the clauses of functions that do nothing.
ghost use Rattle.std.specs.Prelude.{◌≡◌, ◌&&◌};
ghost use Rattle.std.specs.List.{list_all};
ghost use Rattle.ledger_terms.specs.declared.action.Action.{Action};
ghost use Rattle.ledger_terms.specs.declared.act.Act.{Act};
ghost use Rattle.ledger_model.specs.Terms.{PartySet};
ghost use Rattle.ledger_terms.specs.Forest.{Forest, roots_of};
ghost use Rattle.ledger_model.specs.Forest.{trees_of};
ghost use Rattle.ledger_model.specs.declared.roles.Roles.{Roles};
ghost use Rattle.ledger_model.specs.Authority.{is_authorised, is_forest_authorised};
ghost use Rattle.authorise.specs.Below.{are_authorised_below};

/// A transaction is authorised by the parties `by` exactly where they authorise each root, and each action's actors and its contract's signatories
/// authorise its direct consequences. So authority can be checked action by action.
pub fn authority_is_local()
    ensures { (roles : Action → Roles) (by : PartySet) (roots : Forest Act)
        → is_forest_authorised roles by roots
        ≡ (list_all (λ (root : Act). is_authorised roles by root.action) (roots_of roots)
        && list_all (λ (tree : Act × Forest Act). are_authorised_below roles (tree.0).action tree.1) (trees_of roots)) }
{}

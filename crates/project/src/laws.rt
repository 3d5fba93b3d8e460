//! What projections are to the ledger model, as the clauses of functions that do nothing.
ghost use Rattle.std.specs.Prelude.{◌≡◌, Bool};
ghost use Rattle.ledger_terms.specs.Parties.{has_party};
ghost use Rattle.ledger_terms.specs.Trees.{Actions};
ghost use Rattle.ledger_terms.specs.declared.instance.Instance.{Instance};
ghost use Rattle.ledger_terms.specs.declared.value.Value.{Value};
ghost use Rattle.ledger_model.specs.declared.step.ChoiceCall.{ChoiceCall};
ghost use Rattle.ledger_model.specs.Terms.{Name};
ghost use Rattle.ledger_model.specs.Opening.{opened_of};
ghost use Rattle.lang_eval.specs.Found.{Packages};
ghost use Rattle.lang_eval.specs.Parts.{PartyNames};
ghost use Rattle.lang_eval.specs.Language.{language_of};
ghost use Rattle.project.specs.Informed.{projection};

/// The projection to some parties is what a sender that keeps the rules opens to a participant that hosts exactly these parties. It holds whatever the
/// language of the packages calls creatable and exercisable, since projections don't ask that.
pub fn projection_is_opened()
    ensures { (packages : Packages) (is_creatable : Instance → Bool) (is_exercisable : ChoiceCall → PartyNames → Bool → Value → Bool)
        (hosts : Name → Bool) (parties : PartyNames) (roots : Actions)
        → ((name : Name) → hosts name ≡ has_party parties name)
        → opened_of (language_of packages is_creatable is_exercisable) hosts roots ≡ projection packages parties roots }
{}

/// The projection to some parties, projected to the same parties again, stays as it is.
pub fn projecting_again_changes_nothing()
    ensures { (packages : Packages) (parties : PartyNames) (roots : Actions)
        → projection packages parties (projection packages parties roots) ≡ projection packages parties roots }
{}

//! The laws of the language's definitions, as the clauses of functions that do nothing.
ghost use Rattle.std.specs.Prelude.{◌≡◌, ℕ, Bool, List, true, Ok};
ghost use Rattle.std.specs.List.{flat_map};
ghost use Rattle.ledger_terms.specs.Syntax.{ExprForm, StmtForms, When, NoStmts};
ghost use Rattle.ledger_terms.specs.Packages.{TemplateForm, ChoiceForm};
ghost use Rattle.ledger_terms.specs.Parties.{has_party};
ghost use Rattle.ledger_terms.specs.declared.instance.Instance.{Instance};
ghost use Rattle.ledger_terms.specs.declared.value.Value.{Value};
ghost use Rattle.ledger_terms.specs.declared.value.Value.TheVariants.{Unit as UnitValue};
ghost use Rattle.ledger_terms.specs.declared.action.Action.{Action};
ghost use Rattle.ledger_model.specs.declared.step.ChoiceCall.{ChoiceCall};
ghost use Rattle.ledger_model.specs.declared.step.ChildResult.{ChildResult};
ghost use Rattle.ledger_model.specs.declared.step.Step.{Step};
ghost use Rattle.ledger_model.specs.declared.step.Step.TheVariants.{Done};
ghost use Rattle.ledger_model.specs.Language.{roles_of};
ghost use Rattle.lang_eval.specs.Names.{Names};
ghost use Rattle.lang_eval.specs.Value.{val, with_value};
ghost use Rattle.lang_eval.specs.Found.{Packages};
ghost use Rattle.lang_eval.specs.Next.{Went, ran, next, next_of, names_of};
ghost use Rattle.lang_eval.specs.Builtin.{archive_of, checked_packages};
ghost use Rattle.lang_eval.specs.Parts.{PartyNames, parties_of_contract, parties_of_created, parties_of_choice, observers_of_choice};
ghost use Rattle.lang_eval.specs.Named.{AreKnown, parties_in_value, parties_in_names, parties_in_expr, parties_in_instance};
ghost use Rattle.lang_eval.specs.Named.{parties_in_packages, parties_in_call, parties_in_seen, parties_in_step, parties_in_action};
ghost use Rattle.lang_eval.specs.Named.{parties_in_roles, stakeholder_names, choice_party_names};
ghost use Rattle.lang_eval.specs.declared.contract_parties.ContractParties.{ContractParties};
ghost use Rattle.lang_eval.specs.declared.choice_parties.ChoiceParties.{ChoiceParties};
ghost use Rattle.lang_eval.specs.Language.{language_of, roles_in};

/// A choice whose body has no statements is done at once, with the choice's result or that result's fault (`any`); so Archive is done at once with Unit
/// (`archive`).
pub fn empty_bodies_end()
    ensures any { (t : TemplateForm) (c : ChoiceForm) (packages : Packages) (call : ChoiceCall) (seen : List ChildResult)
        → c.body ≡ NoStmts
        → next_of t c packages call seen ≡ with_value (val c.result (names_of t c call)) (λ v. Ok (Done v)) }
    ensures archive { (t : TemplateForm) (signatories : ExprForm) (packages : Packages) (call : ChoiceCall) (seen : List ChildResult)
        → next_of t (archive_of signatories) packages call seen ≡ Ok (Done UnitValue) }
{}

/// Where a `when` comes to its end, the names that are bound after it are those that were bound before it: what one of its sides binds is forgotten.
pub fn bindings_end()
    ensures { (e : ExprForm) (first second : StmtForms) (packages : Packages) (names : Names) (seen : List ChildResult) (more : Names)
        (left : List ChildResult)
        → ran (When e first second) packages names seen ≡ Went more left
        → more ≡ names }
{}

/// Each confirmer of an action is one of its informees.
pub fn confirmers_are_informed()
    ensures { (packages : Packages) (action : Action) (party : List ℕ)
        → has_party (roles_in packages action).confirmers party ≡ true
        → has_party (roles_in packages action).informees party ≡ true }
{}

/// The value of an expression names no party beyond those of its literals and of the values that are bound (`value`). A step of a body names none
/// beyond those of the packages, of the contract and the arguments, and of what its children gave (`step`). `known` is any test of parties, as whether
/// one is of a topology.
pub fn evaluations_name_no_other_parties()
    ensures value { (known : List ℕ → Bool) (e : ExprForm) (names : Names) (v : Value)
        → AreKnown known (parties_in_expr e)
        → AreKnown known (parties_in_names names)
        → val e names ≡ Ok v
        → AreKnown known (parties_in_value v) }
    ensures step { (known : List ℕ → Bool) (packages : Packages) (call : ChoiceCall) (seen : List ChildResult) (step : Step)
        → AreKnown known (parties_in_packages packages)
        → AreKnown known (parties_in_call call)
        → AreKnown known (flat_map parties_in_seen seen)
        → next packages call seen ≡ Ok step
        → AreKnown known (parties_in_step step) }
{}

/// The signatories and observers of a contract (`contract`, `created`), the controllers and observers of a call (`choice`) and its observers alone
/// (`observers`) are among the parties that the packages and the contract or the call name. `known` is any test of parties.
pub fn parties_are_named()
    ensures contract { (known : List ℕ → Bool) (packages : Packages) (i : Instance) (parties : ContractParties)
        → AreKnown known (parties_in_packages packages)
        → AreKnown known (parties_in_instance i)
        → parties_of_contract packages i ≡ Ok parties
        → AreKnown known (stakeholder_names parties) }
    ensures created { (known : List ℕ → Bool) (packages : Packages) (i : Instance) (parties : ContractParties)
        → AreKnown known (parties_in_packages packages)
        → AreKnown known (parties_in_instance i)
        → parties_of_created packages i ≡ Ok parties
        → AreKnown known (stakeholder_names parties) }
    ensures choice { (known : List ℕ → Bool) (packages : Packages) (call : ChoiceCall) (parties : ChoiceParties)
        → AreKnown known (parties_in_packages packages)
        → AreKnown known (parties_in_call call)
        → parties_of_choice packages call ≡ Ok parties
        → AreKnown known (choice_party_names parties) }
    ensures observers { (known : List ℕ → Bool) (packages : Packages) (call : ChoiceCall) (observers : PartyNames)
        → AreKnown known (parties_in_packages packages)
        → AreKnown known (parties_in_call call)
        → observers_of_choice packages call ≡ Ok observers
        → AreKnown known observers }
{}

/// The five sets of an action's roles have no party beyond those that the packages and the action name. `known` is any test of parties.
pub fn roles_are_named()
    ensures { (known : List ℕ → Bool) (packages : Packages) (action : Action)
        → AreKnown known (parties_in_packages packages)
        → AreKnown known (parties_in_action action)
        → AreKnown known (parties_in_roles (roles_in packages action)) }
{}

/// What is built in, the package Note and the choices Archive, names no party beyond those of the given packages: where all parties of these pass the
/// test `known`, so do all parties of the packages that a script runs with.
pub fn built_in_packages_name_no_party()
    ensures { (known : List ℕ → Bool) (given : Packages)
        → AreKnown known (parties_in_packages given)
        → AreKnown known (parties_in_packages (checked_packages given)) }
{}

/// The roles of an action are the same, whatever the two tests are that `language_of` is given for what hangs on sizes.
pub fn roles_hang_on_no_size()
    ensures { (packages : Packages) (is_creatable : Instance → Bool) (is_exercisable : ChoiceCall → PartyNames → Bool → Value → Bool) (action : Action)
        → roles_of (language_of packages is_creatable is_exercisable) action ≡ roles_in packages action }
{}

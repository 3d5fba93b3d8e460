//! The laws of the check, as the clauses of functions that do nothing.
ghost use Rattle.std.specs.Prelude.{◌≡◌, ◌≢◌, ◌↔◌, ◌∷◌, [], List, true, Some, Ok, Err};
ghost use Rattle.ledger_terms.specs.Syntax.{ExprForm};
ghost use Rattle.ledger_terms.specs.declared.instance.Instance.{Instance};
ghost use Rattle.ledger_terms.specs.declared.kind.Kind.{Kind};
ghost use Rattle.ledger_terms.specs.declared.value.Value.{Value};
ghost use Rattle.lang_eval.specs.declared.eval_fault.EvalFault.{EvalFault};
ghost use Rattle.lang_eval.specs.declared.eval_fault.EvalFault.TheVariants.{Assert as AssertFault, Memory as EvalMemory};
ghost use Rattle.lang_eval.specs.Names.{Names};
ghost use Rattle.lang_eval.specs.Value.{val};
ghost use Rattle.lang_eval.specs.Kinds.{kind_of, have_kinds, has_kinds};
ghost use Rattle.lang_eval.specs.Next.{names_of, next};
ghost use Rattle.lang_eval.specs.Parts.{parties_of_created, parties_of_choice};
ghost use Rattle.lang_eval.specs.Checking.{AreChecked};
ghost use Rattle.lang_check.specs.KindedNames.{kinds_in};
ghost use Rattle.lang_check.specs.Asked.{IsAsked, AreAnswers, IsEvaluable, IsCallEvaluable};
ghost use Rattle.lang_check.specs.Defaults.{IsOverLimit, IsOfBodies, IsOfContracts, TakesNoDefault, BodyTakesNoDefault, AreRefuted};
ghost use Rattle.ledger_terms.specs.Packages.{TemplateForm, ChoiceForm};
ghost use Rattle.ledger_model.specs.declared.step.ChoiceCall.{ChoiceCall};
ghost use Rattle.ledger_model.specs.declared.step.ChildResult.{ChildResult};
ghost use Rattle.ledger_model.specs.declared.step.Step.{Step};
ghost use Rattle.lang_eval.specs.Found.{Packages, template_in, choice_in};
ghost use Rattle.lang_eval.specs.Builtin.{note_form};
ghost use Rattle.lang_eval.specs.Typed.{Scope, HasKind, ArePackages};
ghost use Rattle.lang_check.specs.declared.check_fault.CheckFault.{CheckFault};
ghost use Rattle.lang_check.specs.declared.check_kind.CheckKind.TheVariants.{Memory};
ghost use Rattle.lang_check.specs.Packages.{walk};

/// An expression has one kind at most in a scope.
pub fn kinds_are_unique()
    ensures { (e : ExprForm) (scope : Scope) (j k : Kind) → HasKind e scope j → HasKind e scope k → j ≡ k }
{}

/// Where an expression has a kind in the scope of these names (`kinds_in`), its value under them is of that kind. So well-typed code never
/// meets an operand of a wrong kind, for which evaluation has a default.
pub fn values_have_their_kinds()
    ensures { (e : ExprForm) (names : Names) (k : Kind) (v : Value) → HasKind e (kinds_in names) k → val e names ≡ Ok v → kind_of v ≡ k }
{}

/// Where fields and arguments of a call have their kinds, and each result of a child (`seen`) answers the step before it, the body of a choice of
/// checked packages asks only for templates and choices that are there, with fields and arguments of their kinds, and its result has the choice's kind.
pub fn bodies_ask_for_what_is_there()
    ensures { (packages : Packages) (call : ChoiceCall) (c : ChoiceForm) (seen : List ChildResult) (step : Step)
        → AreChecked packages
        → choice_in call.instance.template call.choice packages ≡ Some c
        → has_kinds packages call.instance ≡ true
        → have_kinds call.args c.params ≡ true
        → AreAnswers packages call [] seen
        → next packages call seen ≡ Ok step
        → IsAsked packages c.returns step }
{}

/// In checked packages an `ensure` that has a value gives a truth value, and signatories, observers, controllers and choice observers that
/// have one give sets of parties, where fields and arguments have their kinds.
pub fn parties_are_evaluated_to_sets()
    ensures contract { (packages : Packages) (t : TemplateForm) (i : Instance)
        → AreChecked packages
        → template_in i.template packages ≡ Some t
        → has_kinds packages i ≡ true
        → IsEvaluable t i }
    ensures call { (packages : Packages) (t : TemplateForm) (c : ChoiceForm) (call : ChoiceCall)
        → AreChecked packages
        → template_in call.instance.template packages ≡ Some t
        → choice_in call.instance.template call.choice packages ≡ Some c
        → has_kinds packages call.instance ≡ true
        → have_kinds call.args c.params ≡ true
        → IsCallEvaluable t c call }
{}

/// By the definitions no expression (`val`) and no step of a body (`next`) has want of memory as its fault: that is the code's alone.
pub fn evaluations_want_no_memory()
    ensures value { (e : ExprForm) (names : Names) (f : EvalFault) → val e names ≡ Err f → f ≢ EvalMemory }
    ensures body { (packages : Packages) (call : ChoiceCall) (seen : List ChildResult) (f : EvalFault) → next packages call seen ≡ Err f → f ≢ EvalMemory }
{}

/// An expression can only have the fault of a number or a text beyond its limit (Overflow, TooLarge), and the step of a body only these or
/// that of an assertion (Assert), well typed or not. Neither has a fault of contracts (Ensure, NoSignatory).
pub fn evaluations_fault_at_their_limits()
    ensures value { (e : ExprForm) (names : Names) (f : EvalFault) → val e names ≡ Err f → IsOverLimit f }
    ensures body { (packages : Packages) (call : ChoiceCall) (seen : List ChildResult) (f : EvalFault) → next packages call seen ≡ Err f → IsOfBodies f }
{}

/// Where a kind is wrong, a name isn't bound, or a template or choice isn't there, the definitions of evaluation give a default. A well-typed
/// expression takes none, nor does the body of a checked package where what its children gave (`seen`) answers the steps before it. So
/// such a body has the fault of an assertion exactly where one of its assertions is reached and is evaluated to false.
pub fn no_default_is_taken()
    ensures expression { (e : ExprForm) (names : Names) (k : Kind) → HasKind e (kinds_in names) k → TakesNoDefault e names }
    ensures body { (packages : Packages) (call : ChoiceCall) (t : TemplateForm) (c : ChoiceForm) (seen : List ChildResult)
        → AreChecked packages
        → template_in call.instance.template packages ≡ Some t
        → choice_in call.instance.template call.choice packages ≡ Some c
        → has_kinds packages call.instance ≡ true
        → have_kinds call.args c.params ≡ true
        → AreAnswers packages call [] seen
        → BodyTakesNoDefault t c packages call seen }
    ensures assertion { (packages : Packages) (call : ChoiceCall) (t : TemplateForm) (c : ChoiceForm) (seen : List ChildResult)
        → AreChecked packages
        → template_in call.instance.template packages ≡ Some t
        → choice_in call.instance.template call.choice packages ≡ Some c
        → has_kinds packages call.instance ≡ true
        → have_kinds call.args c.params ≡ true
        → AreAnswers packages call [] seen
        → (next packages call seen ≡ Err AssertFault) ↔ AreRefuted c.body packages (names_of t c call) seen }
{}

/// In checked packages, and where fields and arguments have their kinds, the parties of a contract that is created have a fault for one of
/// three causes alone: a number or text beyond its limit, an `ensure` that is false, or no signatory. Those of a call have only the first.
pub fn parties_fault_by_their_terms()
    ensures created { (packages : Packages) (t : TemplateForm) (i : Instance) (f : EvalFault)
        → AreChecked packages
        → template_in i.template packages ≡ Some t
        → has_kinds packages i ≡ true
        → parties_of_created packages i ≡ Err f
        → IsOfContracts t i f }
    ensures call { (packages : Packages) (t : TemplateForm) (c : ChoiceForm) (call : ChoiceCall) (f : EvalFault)
        → AreChecked packages
        → template_in call.instance.template packages ≡ Some t
        → choice_in call.instance.template call.choice packages ≡ Some c
        → has_kinds packages call.instance ≡ true
        → have_kinds call.args c.params ≡ true
        → parties_of_choice packages call ≡ Err f
        → IsOverLimit f }
{}

/// The definition of the check, `walk`, never has want of memory as its fault: that is the code's alone.
pub fn walks_want_no_memory()
    ensures { (packages : Packages) (f : CheckFault) → walk packages ≡ Err f → f.kind ≢ Memory }
{}

/// The check of packages, `walk`, finds no fault exactly where they are well typed.
pub fn faultless_packages_are_typed()
    ensures { (packages : Packages) → (walk packages ≡ Ok tt) ↔ ArePackages (note_form ∷ []) packages }
{}

//! Choices of a template. A party for which nobody of the topology confirms is Unknown. `alloc` gives the memory for what is read; where memory is
//! wanting, also for the place in a fault, the fault is Memory.
ghost use Rattle.std.specs.Prelude.{◌≡◌};
ghost use Rattle.serde_json.specs.View.{view};
ghost use Rattle.ledger_terms.specs.Answers.{Follows, FollowsAs};
ghost use Rattle.ledger_terms.specs.ExprForms.{expr_form};
ghost use Rattle.ledger_terms.specs.StmtForms.{stmt_list_form};
ghost use Rattle.lang_read.specs.Packages.{nobody, returns_in, has_choice_members, controllers_in, choice_parties_of, outcome_of, choice_of, choices_in};

use crate::expr_members::{expr_in, expr_or};
use crate::field_decls::params_in;
use crate::kinds::read_kind;
use crate::stmt::body_in;
use json_walk::{CHOICES, Place, WalkFault, fits, name_in, read_few, shape, truth_in};
use ledger_terms::{Choice, ChoiceList, Expr, ExprList, Kind, StmtList, Topology, Value as Term};
use serde_json::Value;
use std::alloc::Global;
use std::boxed::Box;

/// The expression that stands for absent observers, of a template or a choice: the empty set of parties. It asks for no memory, which `alloc` would
/// give to a longer list.
#[tactic(auto, using(ledger_terms::proofs::ExprRows::form_SetOf))]
pub fn nobody(alloc: Global) -> Expr
    ensures { expr_form result ≡ nobody }
{
    Expr::SetOf(ExprList::new(alloc))
}

#[tactic(auto, unfolding(crate::specs::Packages::returns_in))]
fn returns_in(value: &Value, at: &Place) -> Result<Kind, WalkFault>
    ensures { Follows WalkFault.Memory result (returns_in at.now (view value.now)) }
{
    match value.get("returns") {
        Some(found) => read_kind(found, &at.member("returns")),
        None => Ok(Kind::Unit),
    }
}

#[tactic(auto, unfolding(crate::specs::Packages::has_choice_members))]
fn has_choice_members(value: &Value) -> bool
    ensures { result ≡ has_choice_members (view value.now) }
{
    fits(
        value,
        &["name", "consuming", "controllers"],
        &["params", "observers", "returns", "body", "result"],
    )
}

#[tactic(auto, unfolding(crate::specs::Packages::controllers_in))]
fn controllers_in(
    alloc: Global,
    value: &Value,
    at: &Place,
    topology: &Topology,
) -> Result<Box<Expr>, WalkFault>
    ensures { FollowsAs WalkFault.Memory (λ e. expr_form e.value) result (controllers_in topology.now.hosts at.now (view value.now)) }
{
    expr_in(alloc, value, at, "controllers", topology)
}

#[tactic(auto, unfolding(crate::specs::Packages::choice_parties_of))]
fn read_parties(
    alloc: Global,
    value: &Value,
    at: &Place,
    topology: &Topology,
) -> Result<(Box<Expr>, Box<Expr>), WalkFault>
    ensures { FollowsAs WalkFault.Memory (λ p. (expr_form p.0.value, expr_form p.1.value)) result
        (choice_parties_of topology.now.hosts at.now (view value.now)) }
{
    let controllers = controllers_in(alloc, value, at, topology)?;
    let observers = expr_or(alloc, value, at, "observers", nobody(alloc), topology)?;
    Ok((controllers, observers))
}

#[tactic(auto, unfolding(crate::specs::Packages::outcome_of))]
fn read_outcome(
    alloc: Global,
    value: &Value,
    at: &Place,
    topology: &Topology,
) -> Result<(Kind, StmtList, Box<Expr>), WalkFault>
    ensures { FollowsAs WalkFault.Memory (λ o. (o.0, stmt_list_form o.1, expr_form o.2.value)) result
        (outcome_of topology.now.hosts at.now (view value.now)) }
{
    let returns = returns_in(value, at)?;
    let body = body_in(alloc, value, at, topology)?;
    let unit = Expr::Literal(Term::Unit);
    let result = expr_or(alloc, value, at, "result", unit, topology)?;
    Ok((returns, body, result))
}

#[tactic(auto, unfolding(crate::specs::Packages::choice_of))]
fn read_choice(
    alloc: Global,
    value: &Value,
    at: &Place,
    topology: &Topology,
) -> Result<Choice, WalkFault>
    ensures { Follows WalkFault.Memory result (choice_of topology.now.hosts at.now (view value.now)) }
{
    if !has_choice_members(value) {
        return shape(at);
    }
    let name = name_in(value, at, "name")?;
    let consuming = truth_in(value, at, "consuming")?;
    let params = params_in(alloc, value, at)?;
    let (controllers, observers) = read_parties(alloc, value, at, topology)?;
    let (returns, body, result) = read_outcome(alloc, value, at, topology)?;
    Ok(Choice {
        name,
        consuming,
        params,
        controllers: Box::into_inner(controllers),
        observers: Box::into_inner(observers),
        returns,
        body,
        result: Box::into_inner(result),
    })
}

/// The choices in the member `choices` of the template that is `value`, none where that member is absent, or the first fault. `at` is the place of
/// the template, and parties have to be those of the topology.
#[tactic(auto, unfolding(crate::specs::Packages::choices_in))]
pub fn choices_in(
    alloc: Global,
    value: &Value,
    at: &Place,
    topology: &Topology,
) -> Result<ChoiceList, WalkFault>
    ensures { Follows WalkFault.Memory result (choices_in topology.now.hosts at.now (view value.now)) }
{
    match value.get("choices") {
        Some(found) => read_few(
            alloc,
            found,
            &at.member("choices"),
            CHOICES,
            |item, here| read_choice(alloc, item, here, topology),
        ),
        None => Ok(ChoiceList::new(alloc)),
    }
}

//! Templates of a package. A party for which nobody of the topology confirms is Unknown. `alloc` gives the memory for what is read; where memory is
//! wanting, also for the place in a fault, the fault is Memory.
ghost use Rattle.std.specs.Prelude.{◌≡◌, ◌≤◌, ◌+◌, length, IfOk};
ghost use Rattle.serde_json.specs.View.{view};
ghost use Rattle.ledger_terms.specs.Answers.{Follows, FollowsAs};
ghost use Rattle.ledger_terms.specs.ExprForms.{expr_form};
ghost use Rattle.lang_read.specs.Packages.{has_template_members, signatories_in, template_parties_of, template_form_of, templates_of, templates_in};

use crate::choice::{choices_in, nobody};
use crate::expr_members::{expr_in, expr_or};
use crate::field_decls::fields_in;
use json_walk::{
    Place, TEMPLATES, WalkFault, check_limit, fits, member, name_in, read_each, read_items, shape,
};
use ledger_terms::{Expr, Template, TemplateList, Topology, Value as Term};
use serde_json::Value;
use std::alloc::Global;
use std::boxed::Box;

#[tactic(auto, unfolding(crate::specs::Packages::has_template_members))]
fn has_template_members(value: &Value) -> bool
    ensures { result ≡ has_template_members (view value.now) }
{
    fits(
        value,
        &["name", "fields", "signatories"],
        &["ensure", "observers", "choices"],
    )
}

#[tactic(auto, unfolding(crate::specs::Packages::signatories_in))]
fn signatories_in(
    alloc: Global,
    value: &Value,
    at: &Place,
    topology: &Topology,
) -> Result<Box<Expr>, WalkFault>
    ensures { FollowsAs WalkFault.Memory (λ e. expr_form e.value) result (signatories_in topology.now.hosts at.now (view value.now)) }
{
    expr_in(alloc, value, at, "signatories", topology)
}

#[tactic(auto, unfolding(crate::specs::Packages::template_parties_of))]
fn read_parties(
    alloc: Global,
    value: &Value,
    at: &Place,
    topology: &Topology,
) -> Result<(Box<Expr>, Box<Expr>), WalkFault>
    ensures { FollowsAs WalkFault.Memory (λ p. (expr_form p.0.value, expr_form p.1.value)) result
        (template_parties_of topology.now.hosts at.now (view value.now)) }
{
    let signatories = signatories_in(alloc, value, at, topology)?;
    let observers = expr_or(alloc, value, at, "observers", nobody(alloc), topology)?;
    Ok((signatories, observers))
}

#[tactic(auto, unfolding(crate::specs::Packages::template_form_of))]
fn read_template(
    alloc: Global,
    value: &Value,
    at: &Place,
    topology: &Topology,
) -> Result<Template, WalkFault>
    ensures { Follows WalkFault.Memory result (template_form_of topology.now.hosts at.now (view value.now)) }
{
    if !has_template_members(value) {
        return shape(at);
    }
    let name = name_in(value, at, "name")?;
    let fields = fields_in(alloc, value, at)?;
    let always = Expr::Literal(Term::Bool(true));
    let ensure = expr_or(alloc, value, at, "ensure", always, topology)?;
    let (signatories, observers) = read_parties(alloc, value, at, topology)?;
    let choices = choices_in(alloc, value, at, topology)?;
    Ok(Template {
        name,
        fields,
        ensure: Box::into_inner(ensure),
        signatories: Box::into_inner(signatories),
        observers: Box::into_inner(observers),
        choices,
    })
}

#[tactic(auto, using(json_walk::proofs::Items::item_count_view), unfolding(crate::specs::Packages::templates_of))]
fn read_templates(
    alloc: Global,
    value: &Value,
    at: &Place,
    topology: &Topology,
    before: u64,
) -> Result<TemplateList, WalkFault>
    requires { before ≤ TEMPLATES.most }
    ensures first { Follows WalkFault.Memory result (templates_of topology.now.hosts before at.now (view value.now)) }
    ensures few { IfOk result (λ t. before + length t ≤ TEMPLATES.most) }
{
    let items = read_items(value, at)?;
    let count = before + items.len() as u64;
    check_limit(at, TEMPLATES, count)?;
    read_each(
        alloc,
        items,
        at,
        |item, here| read_template(alloc, item, here, topology),
    )
}

/// The templates in the member `templates` of the package that is `value` at the place `at`, or the first fault. The packages before it have
/// `before` templates, which count to the limit of templates in all; parties have to be those of the topology.
#[tactic(auto, unfolding(crate::specs::Packages::templates_in))]
pub fn templates_in(
    alloc: Global,
    value: &Value,
    at: &Place,
    topology: &Topology,
    before: u64,
) -> Result<TemplateList, WalkFault>
    requires { before ≤ TEMPLATES.most }
    ensures first { Follows WalkFault.Memory result (templates_in topology.now.hosts before at.now (view value.now)) }
    ensures few { IfOk result (λ t. before + length t ≤ TEMPLATES.most) }
{
    let found = member(value, at, "templates")?;
    read_templates(alloc, found, &at.member("templates"), topology, before)
}

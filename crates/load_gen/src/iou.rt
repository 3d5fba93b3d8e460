//! The package Iou. `alloc` gives the memory, and the only error is want of it.
ghost use Rattle.std.specs.Prelude.{◌≡◌, ◌∷◌, [], IfOk};
ghost use Rattle.load_gen.specs.Iou.{iou_fields, iou_form, loop_form, iou_package, transfer_form, grow_form};

use crate::choices::{down, grow, iou_name, transfer};
use crate::forms::{both, field, is_positive, no_parties, one_party};
use ledger_terms::{
    ChoiceList, Expr, FieldDeclList, Kind, Name, Package, Template, TemplateList, Value,
};
use std::alloc::{AllocError, Global};

fn iou_fields(alloc: Global) -> Result<FieldDeclList, AllocError>
    ensures { IfOk result (λ f. f ≡ iou_fields) }
{
    let mut fields = FieldDeclList::new(alloc);
    fields.push(field(Name::read("issuer").unwrap(), Kind::Party))?;
    fields.push(field(Name::read("owner").unwrap(), Kind::Party))?;
    fields.push(field(Name::read("amount").unwrap(), Kind::Int))?;
    Ok(fields)
}

fn iou_choices(alloc: Global) -> Result<ChoiceList, AllocError>
    ensures { IfOk result (λ c. c ≡ transfer_form ∷ grow_form ∷ []) }
{
    let mut choices = ChoiceList::new(alloc);
    choices.push(transfer(alloc)?)?;
    choices.push(grow(alloc)?)?;
    Ok(choices)
}

fn iou(alloc: Global) -> Result<Template, AllocError>
    ensures { IfOk result (λ t. t ≡ iou_form) }
{
    let ((signatories, observers), (ensure, (fields, choices))) = both(
        both(
            one_party(alloc, "this.issuer"),
            one_party(alloc, "this.owner"),
        ),
        both(
            is_positive(alloc, "this.amount"),
            both(iou_fields(alloc), iou_choices(alloc)),
        ),
    )?;
    Ok(Template {
        name: iou_name(),
        fields,
        ensure,
        signatories,
        observers,
        choices,
    })
}

fn looping_template(alloc: Global) -> Result<Template, AllocError>
    ensures { IfOk result (λ t. t ≡ loop_form) }
{
    let (signatories, choice) = both(one_party(alloc, "this.owner"), down(alloc))?;
    let mut fields = FieldDeclList::new(alloc);
    fields.push(field(Name::read("owner").unwrap(), Kind::Party))?;
    let mut choices = ChoiceList::new(alloc);
    choices.push(choice)?;
    Ok(Template {
        name: Name::read("Loop").unwrap(),
        fields,
        ensure: Expr::Literal(Value::Bool(true)),
        signatories,
        observers: no_parties(alloc),
        choices,
    })
}

/// The package Iou with two templates: a debt of an issuer, who signs it and may let it grow, to an owner, who observes it and may transfer it; and
/// a contract with a choice that calls itself.
pub fn iou_package(alloc: Global) -> Result<Package, AllocError>
    ensures { IfOk result (λ p. p ≡ iou_package) }
{
    let mut templates = TemplateList::new(alloc);
    templates.push(iou(alloc)?)?;
    templates.push(looping_template(alloc)?)?;
    Ok(Package {
        name: iou_name(),
        templates,
    })
}

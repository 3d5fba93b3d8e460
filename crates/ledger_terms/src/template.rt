//! Templates of contracts.

use crate::choice::ChoiceList;
use crate::expr::Expr;
use crate::field_decl::FieldDeclList;
use crate::list::ListOf;
use crate::name::Name;
use std::marker::Model;

/// A template of contracts, which contracts see as plain data.
#[derive(Drop)]
pub struct Template {
    pub name: Name,
    pub fields: FieldDeclList,
    pub ensure: Expr,
    pub signatories: Expr,
    pub observers: Expr,
    pub choices: ChoiceList,
}

impl Model for Template {
    ghost use Rattle.ledger_terms.specs.Packages.{TemplateForm, coded_template};
    ghost use Rattle.ledger_terms.specs.ExprForms.{expr_form};

    ghost Value = { TemplateForm };

    ghost coded = { coded_template };

    ghost view = { λ t. record {
      name = t.name;
      fields = t.fields;
      ensure = expr_form t.ensure;
      signatories = expr_form t.signatories;
      observers = expr_form t.observers;
      choices = t.choices;
    } };
}

/// Templates.
pub type TemplateList = ListOf<Template>;

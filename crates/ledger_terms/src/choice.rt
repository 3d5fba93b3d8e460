//! Choices of a template.

use crate::expr::Expr;
use crate::field_decl::FieldDeclList;
use crate::kind::Kind;
use crate::list::ListOf;
use crate::name::Name;
use crate::stmt::StmtList;
use std::marker::Model;

/// A choice of a template, which contracts see as plain data.
#[derive(Drop)]
pub struct Choice {
    pub name: Name,
    pub consuming: bool,
    pub params: FieldDeclList,
    pub controllers: Expr,
    pub observers: Expr,
    pub returns: Kind,
    pub body: StmtList,
    pub result: Expr,
}

impl Model for Choice {
    ghost use Rattle.ledger_terms.specs.Packages.{ChoiceForm, coded_choice};
    ghost use Rattle.ledger_terms.specs.ExprForms.{expr_form};
    ghost use Rattle.ledger_terms.specs.StmtForms.{stmt_list_form};

    ghost Value = { ChoiceForm };

    ghost coded = { coded_choice };

    ghost view = { λ c. record {
      name = c.name;
      consuming = c.consuming;
      params = c.params;
      controllers = expr_form c.controllers;
      observers = expr_form c.observers;
      returns = c.returns;
      body = stmt_list_form c.body;
      result = expr_form c.result;
    } };
}

/// Choices.
pub type ChoiceList = ListOf<Choice>;

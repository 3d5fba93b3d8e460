//! Packages of templates.

use crate::list::ListOf;
use crate::name::Name;
use crate::template::TemplateList;
use std::marker::Model;

/// A package of templates, which contracts see as plain data.
#[derive(Drop)]
pub struct Package {
    pub name: Name,
    pub templates: TemplateList,
}

impl Model for Package {
    ghost use Rattle.ledger_terms.specs.Packages.{PackageForm, coded_package};

    ghost Value = { PackageForm };

    ghost coded = { coded_package };

    ghost view = { λ p. record { name = p.name; templates = p.templates } };
}

/// Packages.
pub type PackageList = ListOf<Package>;

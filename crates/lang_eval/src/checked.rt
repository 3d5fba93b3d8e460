//! Packages that are well typed.
ghost use Rattle.std.specs.Prelude.{◌≡◌, ◌++◌, ◌∷◌, [], Some, find, IfOk, OnOk, option_copied};
ghost use Rattle.ledger_terms.specs.ExprForms.{expr_form};
ghost use Rattle.ledger_terms.specs.Parties.{same_name};
ghost use Rattle.lang_eval.specs.Found.{template_in, choice_in, choice_of};
ghost use Rattle.lang_eval.specs.Builtin.{with_archive, with_archives, archive_of, note_form, checked_packages};
ghost use Rattle.lang_eval.specs.Typed.{ArePackages};

use crate::expr_copy::copy_expr;
use crate::forms::no_parties;
use crate::note::{archive_name, note_package};
use ledger_terms::{
    Choice, Expr, FieldDeclList, Kind, Name, Package, PackageList, StmtList, Template,
    TemplateList, TemplateName, Value,
};
use std::alloc::{AllocError, Global};
use std::marker::Model;

/// Packages that are well typed, Note first, in which each template has the choice Archive.
#[derive(Drop)]
pub struct Checked {
    packages: PackageList,
}

impl Model for Checked {
    ghost use Rattle.lang_eval.specs.Found.{Packages};
    ghost use Rattle.lang_eval.specs.Checking.{AreChecked};
    ghost use Rattle.std.specs.Coded.{coded_list};
    ghost use Rattle.ledger_terms.specs.Packages.{coded_package};

    ghost Value = { Packages };

    ghost coded = { coded_list coded_package };

    ghost view = { λ c. c.packages };

    ghost invariant = { λ c. AreChecked c.packages };
}

/// The first of the packages that has this name; None where none has.
pub fn package_named(packages: &[Package], name: Name) -> Option<&Package>
    ensures { option_copied result ≡ find (λ p. same_name p.name name) packages.now }
{
    for package in packages {
        if package.name == name {
            return Some(package);
        }
    }
    None
}

/// The first of the templates that has this name; None where none has.
pub fn template_named(templates: &[Template], name: Name) -> Option<&Template>
    ensures { option_copied result ≡ find (λ t. same_name t.name name) templates.now }
{
    for template in templates {
        if template.name == name {
            return Some(template);
        }
    }
    None
}

/// The first of the choices that has this name; None where none has.
pub fn choice_named(choices: &[Choice], name: Name) -> Option<&Choice>
    ensures { option_copied result ≡ find (λ c. same_name c.name name) choices.now }
{
    for choice in choices {
        if choice.name == name {
            return Some(choice);
        }
    }
    None
}

/// The choice of that name of a template, or None where it has none.
pub(crate) fn choice_of(template: &Template, name: Name) -> Option<&Choice>
    ensures { option_copied result ≡ choice_of (Some template.now) name }
{
    choice_named(template.choices.as_slice(), name)
}

/// The choice Archive of a template with these signatories, which are its controllers (Ledger Model: archiving).
fn archive(alloc: Global, signatories: &Expr) -> Result<Choice, AllocError>
    ensures { IfOk result (λ c. c ≡ archive_of (expr_form signatories.now)) }
{
    Ok(Choice {
        name: archive_name(),
        consuming: true,
        params: FieldDeclList::new(alloc),
        controllers: copy_expr(signatories)?,
        observers: no_parties(alloc),
        returns: Kind::Unit,
        body: StmtList::new(alloc),
        result: Expr::Literal(Value::Unit),
    })
}

fn add_archive(alloc: Global, template: &mut Template) -> Result<(), AllocError>
    ensures { OnOk result (template.new ≡ with_archive template.old) }
{
    let archive = archive(alloc, &template.signatories)?;
    template.choices.push(archive)
}

fn package_with_archives(alloc: Global, given: Package) -> Result<Package, AllocError>
    ensures { IfOk result (λ p. p ≡ with_archives given) }
{
    let Package { name, templates } = given;
    let mut templates = templates.into_vec();
    for i in 0..templates.len() {
        add_archive(alloc, &mut templates[i])?;
    }
    Ok(Package {
        name,
        templates: TemplateList::of(templates),
    })
}

/// Puts a package at the end, with the choice Archive in its templates.
fn push_with_archives(
    alloc: Global,
    packages: &mut PackageList,
    given: Package,
) -> Result<(), AllocError>
    ensures { OnOk result (packages.new ≡ packages.old ++ with_archives given ∷ []) }
{
    let given = package_with_archives(alloc, given)?;
    packages.push(given)
}

impl Checked {
    ghost use Rattle.lang_eval.specs.Checking.{AreChecked};

    /// The packages that a script runs with: the built-in Note and then the given ones, in order, with the choice Archive behind the choices of each
    /// template. The given ones have to be well typed after Note.
    pub fn of(alloc: Global, packages: PackageList) -> Result<Checked, AllocError>
        requires { ArePackages (note_form ∷ []) packages }
        ensures { IfOk result (λ c. c ≡ checked_packages packages) }
    {
        let mut checked = PackageList::new(alloc);
        push_with_archives(alloc, &mut checked, note_package(alloc)?)?;
        for given in packages.into_vec() {
            push_with_archives(alloc, &mut checked, given)?;
        }
        Ok(Checked { packages: checked })
    }

    /// The packages in order, Note first. They are Note and well-typed packages, with Archive in each template (`checked`).
    pub fn as_slice(&self) -> &[Package]
        ensures packages { result.now ≡ self.now }
        ensures checked { AreChecked self.now }
    {
        self.packages.as_slice()
    }

    /// The template of that name; None exactly where its package or the template isn't there.
    pub fn template(&self, name: TemplateName) -> Option<&Template>
        ensures { option_copied result ≡ template_in name self.now }
    {
        match package_named(self.packages.as_slice(), name.package) {
            Some(package) => template_named(package.templates.as_slice(), name.name),
            None => None,
        }
    }

    /// The choice of that name, which may be Archive, of the template of that name; None exactly where either isn't there.
    pub fn choice(&self, template: TemplateName, choice: Name) -> Option<&Choice>
        ensures { option_copied result ≡ choice_in template choice self.now }
    {
        match self.template(template) {
            Some(template) => choice_of(template, choice),
            None => None,
        }
    }
}

//! The packages whose templates may be named.
ghost use Rattle.std.specs.Prelude.{◌≡◌, ◌∷◌, find, option_copied};
ghost use Rattle.ledger_terms.specs.Parties.{same_name};
ghost use Rattle.lang_eval.specs.Found.{template_in};
ghost use Rattle.lang_eval.specs.Typed.{package_names};
ghost use Rattle.lang_check.specs.Statements.{is_among};

use lang_eval::{package_named, template_named};
use ledger_terms::{Name, Package, Template, TemplateName};
use std::marker::Model;

/// The packages whose templates may be named, the built-in Note first, which contracts see as a list.
#[derive(Drop)]
pub(crate) struct Nameable<'p> {
    note: &'p Package,
    given: &'p [Package],
}

impl<'p> Model for Nameable<'p> {
    ghost use Rattle.std.specs.Prelude.{◌∷◌};
    ghost use Rattle.std.specs.Coded.{coded_list};
    ghost use Rattle.ledger_terms.specs.Packages.{coded_package};
    ghost use Rattle.lang_eval.specs.Found.{Packages};

    ghost Value = { Packages };

    ghost coded = { coded_list coded_package };

    ghost view = { λ n. n.note.now ∷ n.given.now };
}

fn is_named(given: &Package, name: Name) -> bool
    ensures { result ≡ same_name given.now.name name }
{
    given.name == name
}

fn is_package(packages: &[Package], name: Name) -> bool
    ensures { result ≡ is_among name (package_names packages.now) }
{
    'packages: for package in packages {
        if package.name == name {
            return true;
        }
    }
    false
}

impl<'p> Nameable<'p> {
    /// Note, and packages that are given.
    pub(crate) fn new(note: &'p Package, given: &'p [Package]) -> Nameable<'p>
        ensures { result ≡ note.now ∷ given.now }
    {
        Nameable { note, given }
    }

    /// Whether a package has the name.
    pub(crate) fn has(&self, name: Name) -> bool
        ensures { result ≡ is_among name (package_names self.now) }
    {
        is_named(self.note, name) || is_package(self.given, name)
    }

    fn package(&self, name: Name) -> Option<&'p Package>
        ensures { option_copied result ≡ find (λ p. same_name p.name name) self.now }
    {
        if is_named(self.note, name) {
            return Some(self.note);
        }
        package_named(self.given, name)
    }

    /// The template of that name, where it may be named.
    pub(crate) fn template(&self, name: TemplateName) -> Option<&'p Template>
        ensures { option_copied result ≡ template_in name self.now }
    {
        match self.package(name.package) {
            Some(package) => template_named(package.templates.as_slice(), name.name),
            None => None,
        }
    }
}

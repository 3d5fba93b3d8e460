//! The check of packages.
ghost use Rattle.std.specs.Prelude.{◌≡◌, ◌≢◌, ◌∷◌, ◌++◌, [], IfOk, IfErr};
ghost use Rattle.ledger_terms.specs.Answers.{Follows};
ghost use Rattle.lang_eval.specs.Builtin.{note_form, checked_packages};
ghost use Rattle.lang_eval.specs.Typed.{ArePackages};
ghost use Rattle.lang_check.specs.Faults.{Walks, want_of_memory};
ghost use Rattle.lang_check.specs.Declarations.{names_from};
ghost use Rattle.lang_check.specs.Packages.{template_names, package_from, packages_from, walk, checked_or_fault};

use crate::check_fault::CheckFault;
use crate::check_kind::CheckKind;
use crate::declarations::{check_templates, take_name_of};
use crate::faults::require;
use crate::nameable::Nameable;
use crate::stop::Stop;
use json_walk::Place;
use lang_eval::{Checked, note_package};
use ledger_terms::{NameList, Package, PackageList, Pointer, Template};
use std::alloc::{AllocError, Global};

fn check_names(alloc: Global, templates: &[Template], at: &Place) -> Result<(), Stop>
    ensures { Walks (λ _. tt) result (names_from at.now 0 [] (template_names templates.now)) }
{
    let mut taken = NameList::new(alloc);
    'templates: for i in 0..templates.len() {
        let template = &templates[i];
        take_name_of(template.name, &mut taken, at, i)?;
    }
    Ok(())
}

#[tactic(auto, unfolding(crate::specs::Packages::package_from))]
fn check_package(
    alloc: Global,
    given: &Package,
    before: &Nameable<'_>,
    nameable: &Nameable<'_>,
    at: &Place,
) -> Result<(), Stop>
    requires { nameable.now ≡ before.now ++ given.now ∷ [] }
    ensures { Walks (λ _. tt) result (package_from at.now before.now given.now) }
{
    let again = before.has(given.name);
    require(!again, CheckKind::DuplicateName, &at.member("name"))?;
    let at_templates = at.member("templates");
    check_names(alloc, given.templates.as_slice(), &at_templates)?;
    check_templates(alloc, given.templates.as_slice(), nameable, &at_templates)
}

/// Tries packages in order, after the built-in Note.
fn check_given(alloc: Global, note: &Package, packages: &[Package]) -> Result<(), Stop>
    ensures { Walks (λ _. tt) result (packages_from 0 (note.now ∷ []) packages.now) }
{
    let root = Place::root(alloc);
    'packages: for i in 0..packages.len() {
        let before = Nameable::new(note, &packages[..i]);
        let nameable = Nameable::new(note, &packages[..i + 1]);
        check_package(alloc, &packages[i], &before, &nameable, &root.item(i))?;
    }
    Ok(())
}

#[tactic(auto, unfolding(crate::specs::Packages::walk))]
fn check_packages(alloc: Global, packages: &[Package]) -> Result<(), Stop>
    ensures { Walks (λ _. tt) result (walk packages.now) }
{
    let note = note_package(alloc)?;
    check_given(alloc, &note, packages)
}

fn checked(alloc: Global, packages: PackageList) -> Result<Checked, Stop>
    ensures { Walks (λ c. c) result (checked_or_fault packages) }
{
    check_packages(alloc, packages.as_slice())?;
    let checked = Checked::of(alloc, packages)?;
    Ok(checked)
}

/// The packages with what is built in, where they are well typed; an Err is the fault that a walk finds first, or want of memory. The walk takes of a
/// package its name, the names of its templates and the templates; of a template its fields, `ensure`, signatories, observers and choices; of a choice
/// its name, parameters, controllers, observers, body and result; and operands before their expression.
pub fn check(alloc: Global, packages: PackageList) -> Result<Checked, CheckFault>
    ensures follows { Follows want_of_memory result (checked_or_fault packages) }
    ensures typed { IfOk result (λ c. ArePackages (note_form ∷ []) packages × (c ≡ checked_packages packages)) }
    ensures memory { IfErr result (λ e. e.kind ≡ CheckKind.Memory → e.at ≡ []) }
    ensures faulty { IfErr result (λ e. e ≢ want_of_memory → ¬ ArePackages (note_form ∷ []) packages) }
{
    match checked(alloc, packages) {
        Ok(checked) => Ok(checked),
        Err(Stop::Fault(fault)) => Err(fault),
        Err(Stop::Memory) => Err(CheckFault {
            at: Pointer::root(alloc),
            kind: CheckKind::Memory,
        }),
    }
}

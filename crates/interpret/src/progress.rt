//! What a transaction did so far.
ghost use Rattle.std.specs.Prelude.{◌≡◌, ◌&&◌, IfOk, OnOk, option_copied};
ghost use Rattle.ledger_terms.specs.contracts.template_name.TemplateNamePartialEq.TheImpl as template_eq;
ghost use Rattle.lang_eval.specs.Kinds.{has_kinds};
ghost use Rattle.interpret.specs.Act.{with_consumed};
ghost use Rattle.interpret.specs.Interpreted.{nothing_done};
ghost use Rattle.interpret.specs.Usable.{find_known, is_consumed, of_template, usable};

use lang_eval::{Checked, has_kinds};
use ledger_terms::{Exact, Hash, Known, KnownContracts, KnownList, ListOf, TemplateName};
use std::alloc::{AllocError, Global};

/// Ids of contracts.
pub type HashList = ListOf<Hash>;

/// What a transaction created and consumed so far, and how many actions it has.
#[derive(Drop)]
pub struct Progress {
    pub created: KnownList,
    pub consumed: HashList,
    pub count: usize,
}

/// Nothing was done yet.
pub(crate) fn nothing_done(alloc: Global) -> Progress
    ensures { result ≡ nothing_done }
{
    Progress {
        created: KnownList::new(alloc),
        consumed: HashList::new(alloc),
        count: 0,
    }
}

fn find_created<'k>(created: &'k [Known], id: &Hash) -> Option<&'k Known>
    ensures { option_copied result ≡ find_known id.now created.now }
{
    created.iter().find(|k| k.id == *id)
}

fn is_consumed(consumed: &[Hash], id: &Hash) -> bool
    ensures { result ≡ is_consumed id.now consumed.now }
{
    consumed.iter().any(|d| *d == *id)
}

fn has_template(checked: &Checked, template: TemplateName, known: &Known) -> bool
    ensures { result ≡ (template_eq.ghosts.eq known.now.instance.template template && has_kinds checked.now known.now.instance) }
{
    known.instance.template == template && has_kinds(checked, &known.instance)
}

fn usable_known<'k, K: KnownContracts>(
    checked: &Checked,
    known: &'k K,
    id: &Hash,
    template: TemplateName,
) -> Option<&'k Known>
    ensures { option_copied result ≡ of_template checked.now template (find_known id.now (K.rows known.now)) }
{
    match known.find(id) {
        Some(found) => {
            if has_template(checked, template, found) {
                Some(found)
            } else {
                None
            }
        }
        None => None,
    }
}

fn usable_created<'k>(
    checked: &Checked,
    created: &'k [Known],
    id: &Hash,
    template: TemplateName,
) -> Option<&'k Known>
    ensures { option_copied result ≡ of_template checked.now template (find_known id.now created.now) }
{
    match find_created(created, id) {
        Some(found) => {
            if has_template(checked, template, found) {
                Some(found)
            } else {
                None
            }
        }
        None => None,
    }
}

/// The contract of that id and template that an action may use.
#[tactic(auto, unfolding(crate::specs::Usable::usable))]
pub(crate) fn usable<K: KnownContracts>(
    checked: &Checked,
    known: &K,
    progress: &Progress,
    id: &Hash,
    template: TemplateName,
) -> Result<Option<Known>, AllocError>
    ensures { IfOk result (λ k. k ≡ usable checked.now (K.rows known.now) progress.now id.now template) }
{
    if is_consumed(progress.consumed.as_slice(), id) {
        return Ok(None);
    }
    match usable_known(checked, known, id, template) {
        Some(found) => Ok(Some(found.copied()?)),
        None => {
            match usable_created(checked, progress.created.as_slice(), id, template) {
                Some(found) => Ok(Some(found.copied()?)),
                None => Ok(None),
            }
        }
    }
}

/// Notes a contract as consumed, where it is.
pub(crate) fn consume(progress: &mut Progress, consuming: bool, id: Hash) -> Result<(), AllocError>
    ensures { OnOk result (progress.new ≡ with_consumed consuming id progress.old) }
{
    if consuming {
        progress.consumed.push(id)?;
    }
    Ok(())
}

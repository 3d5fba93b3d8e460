//! Declarations of fields and parameters. `alloc` gives the memory for what is read; where memory is wanting, also for the place in a fault, the fault
//! is Memory.
ghost use Rattle.std.specs.Prelude.{◌≡◌};
ghost use Rattle.serde_json.specs.View.{view};
ghost use Rattle.ledger_terms.specs.Answers.{Follows};
ghost use Rattle.lang_read.specs.Packages.{kind_in, decl_of, fields_in, params_in};

use crate::kinds::read_kind;
use json_walk::{FIELDS, PARAMETERS, Place, WalkFault, fits, member, name_in, read_few, shape};
use ledger_terms::{FieldDecl, FieldDeclList, Kind};
use serde_json::Value;
use std::alloc::Global;

#[tactic(auto, unfolding(crate::specs::Packages::kind_in))]
fn kind_in(value: &Value, at: &Place, name: &str) -> Result<Kind, WalkFault>
    ensures { Follows WalkFault.Memory result (kind_in at.now name.now (view value.now)) }
{
    let found = member(value, at, name)?;
    read_kind(found, &at.member(name))
}

#[tactic(auto, unfolding(crate::specs::Packages::decl_of))]
fn read_decl(value: &Value, at: &Place) -> Result<FieldDecl, WalkFault>
    ensures { Follows WalkFault.Memory result (decl_of at.now (view value.now)) }
{
    if !fits(value, &["name", "type"], &[]) {
        return shape(at);
    }
    let name = name_in(value, at, "name")?;
    let kind = kind_in(value, at, "type")?;
    Ok(FieldDecl { name, kind })
}

/// The declarations in the member `fields` of the template that is `value` at the place `at`, in order: Shape where that member is absent or no list,
/// Limit where it has more than 12 items, else the first fault of an item, which has to be an object with `name` and `type` alone.
#[tactic(auto, unfolding(crate::specs::Packages::fields_in))]
pub fn fields_in(alloc: Global, value: &Value, at: &Place) -> Result<FieldDeclList, WalkFault>
    ensures { Follows WalkFault.Memory result (fields_in at.now (view value.now)) }
{
    let found = member(value, at, "fields")?;
    read_few(alloc, found, &at.member("fields"), FIELDS, read_decl)
}

/// The declarations in the member `params` of the choice that is `value` at the place `at`, none where that member is absent; Limit where there are
/// too many.
#[tactic(auto, unfolding(crate::specs::Packages::params_in))]
pub fn params_in(alloc: Global, value: &Value, at: &Place) -> Result<FieldDeclList, WalkFault>
    ensures { Follows WalkFault.Memory result (params_in at.now (view value.now)) }
{
    match value.get("params") {
        Some(found) => read_few(alloc, found, &at.member("params"), PARAMETERS, read_decl),
        None => Ok(FieldDeclList::new(alloc)),
    }
}

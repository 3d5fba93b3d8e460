//! The members of an object. `value` is the object, `at` its place, and `name` the name of the member. Where memory is wanting, also for the place in a
//! fault, the fault is Memory.
ghost use Rattle.std.specs.Prelude.{◌≡◌, ◌≢◌, MatchResult, map, is_some, Ok, Err};
ghost use Rattle.std.specs.List.{list_all};
ghost use Rattle.serde_json.specs.Find.{get};
ghost use Rattle.serde_json.specs.View.{view, members_view};
ghost use Rattle.ledger_terms.specs.Answers.{Follows};
ghost use Rattle.json_walk.specs.Listed.{is_among};
ghost use Rattle.json_walk.specs.Walk.{has_members, has_each, members_among, member_of, name_in, truth_in, truth_or};

use crate::place::Place;
use crate::scalar::{read_name, read_truth, shape};
use crate::walk_fault::WalkFault;
use ledger_terms::Name;
use serde_json::{Map, Value};

/// Whether the value is an object that has all the required members, and no others than these and the optional ones; false of any other value.
#[tactic(auto, unfolding(crate::specs::Walk::has_members))]
pub fn fits(value: &Value, required: &[&str], optional: &[&str]) -> bool
    ensures { result
        ≡ has_members (map (λ k. k.now) required.now) (map (λ k. k.now) optional.now) (view value.now) }
{
    match value.as_object() {
        Some(members) => has_all(value, required) && has_no_others(members, required, optional),
        None => false,
    }
}

fn has_all(value: &Value, required: &[&str]) -> bool
    ensures { result ≡ has_each (map (λ k. k.now) required.now) (view value.now) }
{
    required.iter().all(|name| has(value, *name))
}

fn has(value: &Value, name: &str) -> bool
    ensures { result ≡ is_some (get name.now (view value.now)) }
{
    value.get(name).is_some()
}

fn has_no_others(members: &Map<String, Value>, required: &[&str], optional: &[&str]) -> bool
    ensures { result
        ≡ members_among (map (λ k. k.now) required.now) (map (λ k. k.now) optional.now) (members_view members.now.entries) }
{
    members.keys().all(|key| is_listed(key.as_str(), required) || is_listed(key.as_str(), optional))
}

fn is_listed(key: &str, names: &[&str]) -> bool
    ensures { result ≡ is_among key.now (map (λ k. k.now) names.now) }
{
    names.iter().any(|name| *name == key)
}

/// The value of the member `name`, which the object has to have; the fault Shape at the object where it is absent,
/// or where the value is no object.
#[tactic(auto, unfolding(crate::specs::Walk::member_of))]
pub fn member<'v>(value: &'v Value, at: &Place, name: &str) -> Result<&'v Value, WalkFault>
    ensures { MatchResult result (λ v. member_of at.now name.now (view value.now) ≡ Ok (view v.now))
        (λ e. e ≢ WalkFault.Memory → member_of at.now name.now (view value.now) ≡ Err e) }
{
    match value.get(name) {
        Some(found) => Ok(found),
        None => shape(at),
    }
}

/// The name that stands in the member `name`: Shape at the object where the member is absent, and at the member where its value is no name.
#[tactic(auto, unfolding(crate::specs::Walk::name_in))]
pub fn name_in(value: &Value, at: &Place, name: &str) -> Result<Name, WalkFault>
    ensures { Follows WalkFault.Memory result (name_in at.now name.now (view value.now)) }
{
    let found = member(value, at, name)?;
    read_name(found, &at.member(name))
}

/// The truth value in the member `name`: Shape at the object where the member is absent, and at the member where its value is no truth value.
#[tactic(auto, unfolding(crate::specs::Walk::truth_in))]
pub fn truth_in(value: &Value, at: &Place, name: &str) -> Result<bool, WalkFault>
    ensures { Follows WalkFault.Memory result (truth_in at.now name.now (view value.now)) }
{
    let found = member(value, at, name)?;
    read_truth(found, &at.member(name))
}

/// The truth value in the member `name`, false where the member is absent; Shape at the member where its value is no truth value.
#[tactic(auto, unfolding(crate::specs::Walk::truth_or))]
pub fn truth_or(value: &Value, at: &Place, name: &str) -> Result<bool, WalkFault>
    ensures { Follows WalkFault.Memory result (truth_or at.now name.now (view value.now)) }
{
    match value.get(name) {
        Some(found) => read_truth(found, &at.member(name)),
        None => Ok(false),
    }
}

//! Packages. `alloc` gives the memory for what is read; where memory is wanting, also for the place in a fault, the fault is Memory.
ghost use Rattle.std.specs.Prelude.{◌≡◌, ◌≤◌, ◌+◌, length, IfOk};
ghost use Rattle.serde_json.specs.View.{view};
ghost use Rattle.ledger_terms.specs.Answers.{Follows};
ghost use Rattle.lang_read.specs.Packages.{has_package_members, package_of};

use crate::template::templates_in;
use json_walk::{Place, TEMPLATES, WalkFault, fits, name_in, shape};
use ledger_terms::{Package, Topology};
use serde_json::Value;
use std::alloc::Global;

#[tactic(auto, unfolding(crate::specs::Packages::has_package_members))]
fn has_package_members(value: &Value) -> bool
    ensures { result ≡ has_package_members (view value.now) }
{
    fits(value, &["name", "templates"], &[])
}

/// The package that the value `json` at the place `at` spells, or its first fault, Unknown where it names a party for which nobody of the topology
/// confirms. `before` is the number of templates in the packages before it, which count to the limit of 64 templates in all.
#[tactic(auto, unfolding(crate::specs::Packages::package_of))]
pub fn read_package(
    alloc: Global,
    json: &Value,
    at: &Place,
    topology: &Topology,
    before: u64,
) -> Result<Package, WalkFault>
    requires { before ≤ TEMPLATES.most }
    ensures exact { Follows WalkFault.Memory result (package_of topology.now.hosts before at.now (view json.now)) }
    ensures few { IfOk result (λ p. before + length p.templates ≤ TEMPLATES.most) }
{
    if !has_package_members(json) {
        return shape(at);
    }
    let name = name_in(json, at, "name")?;
    let templates = templates_in(alloc, json, at, topology, before)?;
    Ok(Package { name, templates })
}

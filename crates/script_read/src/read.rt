//! Whole scripts. `alloc` gives the memory for what is read; where memory is wanting, also for the place in a fault, the fault is Memory.
ghost use Rattle.std.specs.Prelude.{◌≡◌, ◌≤◌, length, IfOk};
ghost use Rattle.serde_json.specs.View.{view};
ghost use Rattle.ledger_terms.specs.Answers.{Follows};
ghost use Rattle.json_walk.specs.Lists.{counted_of};
ghost use Rattle.script_read.specs.Kept.{IsAccepted};
ghost use Rattle.script_read.specs.Script.{counted_package, packages_in, checked_of, checked_in, has_script_members, topology_in};
ghost use Rattle.script_read.specs.Script.{script_of, script_in};

use crate::host::hosts_in;
use crate::rounds::rounds_in;
use crate::script::Script;
use crate::script_fault::ScriptFault;
use crate::times::read_params;
use crate::triggers::triggers_in;
use crate::vetting::vetting_in;
use json_walk::{
    PACKAGES, PARTICIPANTS, Place, TEMPLATES, WalkFault, fits, read_counted, read_json,
};
use lang_check::{CheckKind, check};
use lang_eval::Checked;
use lang_read::read_package;
use ledger_terms::{Package, PackageList, Pointer, Topology};
use serde_json::Value;
use std::alloc::Global;

/// A package, and the number of templates with its own. `before` is the number of those in the packages before.
#[tactic(auto, unfolding(crate::specs::Script::counted_package))]
fn read_counted_package(
    alloc: Global,
    value: &Value,
    at: &Place,
    before: u64,
    topology: &Topology,
) -> Result<(Package, u64), WalkFault>
    requires { before ≤ TEMPLATES.most }
    ensures exact { Follows WalkFault.Memory result (counted_package topology.now.hosts before at.now (view value.now)) }
    ensures few { IfOk result (λ s. s.1 ≤ TEMPLATES.most) }
{
    let package = read_package(alloc, value, at, topology, before)?;
    let count = before + package.templates.len() as u64;
    Ok((package, count))
}

fn read_packages(
    alloc: Global,
    value: &Value,
    at: &Place,
    topology: &Topology,
) -> Result<(PackageList, u64), WalkFault>
    ensures { Follows WalkFault.Memory result (counted_of (counted_package topology.now.hosts) at.now PACKAGES (view value.now)) }
{
    read_counted(
        alloc,
        value,
        at,
        PACKAGES,
        TEMPLATES.most,
        |item, here, before|
            requires { before ≤ TEMPLATES.most }
        { read_counted_package(alloc, item, here, before, topology) },
    )
}

#[tactic(auto, unfolding(crate::specs::Script::packages_in))]
fn packages_in(alloc: Global, value: &Value, topology: &Topology) -> Result<PackageList, WalkFault>
    ensures { Follows WalkFault.Memory result (packages_in topology.now.hosts (view value.now)) }
{
    match value.get("packages") {
        Some(found) => {
            let root = Place::root(alloc);
            let (packages, _) = read_packages(alloc, found, &root.member("packages"), topology)?;
            Ok(packages)
        }
        None => Ok(PackageList::new(alloc)),
    }
}

/// The packages once they are checked. Want of memory in the check is want of memory here, so that no fault of a package
/// holds it.
#[tactic(auto, unfolding(crate::specs::Script::checked_of))]
fn checked_of(alloc: Global, packages: PackageList) -> Result<Checked, ScriptFault>
    ensures { Follows ScriptFault.Memory result (checked_of packages) }
{
    match check(alloc, packages) {
        Ok(checked) => Ok(checked),
        Err(fault) => if fault.kind == CheckKind::Memory {
            Err(ScriptFault::Memory)
        } else {
            Err(ScriptFault::Package { fault })
        },
    }
}

#[tactic(auto, unfolding(crate::specs::Script::checked_in))]
fn checked_in(alloc: Global, value: &Value, topology: &Topology) -> Result<Checked, ScriptFault>
    ensures { Follows ScriptFault.Memory result (checked_in topology.now.hosts (view value.now)) }
{
    let packages = packages_in(alloc, value, topology)?;
    checked_of(alloc, packages)
}

#[tactic(auto, unfolding(crate::specs::Script::has_script_members))]
fn has_script_members(value: &Value) -> bool
    ensures { result ≡ has_script_members (view value.now) }
{
    fits(
        value,
        &["participants", "rounds"],
        &[
            "response_timeout",
            "reaction_timeout",
            "skew",
            "packages",
            "triggers",
        ],
    )
}

#[tactic(auto, unfolding(crate::specs::Script::topology_in))]
fn topology_in(alloc: Global, value: &Value) -> Result<Topology, WalkFault>
    ensures first { Follows WalkFault.Memory result (topology_in (view value.now)) }
    ensures few { IfOk result (λ t. length t.hosts ≤ PARTICIPANTS.most) }
{
    let hosts = hosts_in(alloc, value)?;
    let params = read_params(alloc, value)?;
    Ok(Topology { hosts, params })
}

/// The script that a JSON value says.
#[tactic(auto, unfolding(crate::specs::Script::script_of))]
fn read_value(alloc: Global, value: &Value) -> Result<Script, ScriptFault>
    ensures { Follows ScriptFault.Memory result (script_of (view value.now)) }
{
    if !has_script_members(value) {
        return Err(ScriptFault::Shape {
            path: Pointer::root(alloc),
        });
    }
    let known = topology_in(alloc, value)?;
    let checked = checked_in(alloc, value, &known)?;
    let hosts = vetting_in(alloc, value, checked.as_slice(), known.hosts.as_slice())?;
    let triggers = triggers_in(alloc, value, &known)?;
    let rounds = rounds_in(alloc, value, &known, &triggers)?;
    Ok(Script {
        topology: Topology {
            hosts,
            params: known.params,
        },
        checked,
        triggers,
        rounds,
    })
}

/// The script that the bytes spell, or its first fault in the order in which they are read: the participants, the times, the packages and
/// their check, what the participants have vetted, the rules, and the rounds. A script that is accepted keeps every limit and names only
/// parties and participants of its topology.
#[tactic(auto, unfolding(crate::specs::Script::script_in))]
pub fn read_script(alloc: Global, bytes: &[u8]) -> Result<Script, ScriptFault>
    ensures exact { Follows ScriptFault.Memory result (script_in bytes.now) }
    ensures accepted { IfOk result IsAccepted }
{
    let value = read_json(alloc, bytes)?;
    read_value(alloc, &value)
}

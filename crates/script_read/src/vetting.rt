//! What the participants have vetted. `alloc` gives the memory for what is read; where memory is wanting, also for the place in a fault, the fault is
//! Memory.
ghost use Rattle.std.specs.Prelude.{◌≡◌, [], IfOk, OnOk, slice_get};
ghost use Rattle.serde_json.specs.View.{view, items_view};
ghost use Rattle.ledger_terms.specs.Answers.{Follows};
ghost use Rattle.json_walk.specs.Walk.{walk_items};
ghost use Rattle.script_read.specs.Hosts.{is_package, package_names, package_name_of, vetted_in, with_vetted, vetting_step, vetting_in};

use crate::host::participants_of;
use json_walk::{Place, WalkFault, read_items, read_list, read_name};
use ledger_terms::{Host, HostList, Name, NameList, Package, Text};
use serde_json::Value;
use std::alloc::{AllocError, Global};

fn is_package(packages: &[Package], name: Name) -> bool
    ensures { result ≡ is_package packages.now name }
{
    packages.iter().any(|package| package.name == name)
}

fn package_names(alloc: Global, packages: &[Package]) -> Result<NameList, AllocError>
    ensures { IfOk result (λ n. n ≡ package_names packages.now) }
{
    let mut names = NameList::new(alloc);
    for package in packages {
        names.push(package.name)?;
    }
    Ok(names)
}

/// The name of one of the packages.
#[tactic(auto, unfolding(crate::specs::Hosts::package_name_of))]
fn read_package_name(
    alloc: Global,
    value: &Value,
    at: &Place,
    packages: &[Package],
) -> Result<Name, WalkFault>
    ensures { Follows WalkFault.Memory result (package_name_of packages.now at.now (view value.now)) }
{
    let name = read_name(value, at)?;
    if !is_package(packages, name) {
        return Err(WalkFault::Unknown {
            path: at.pointer()?,
            name: Text::of(alloc, name.as_str())?,
        });
    }
    Ok(name)
}

#[tactic(auto, unfolding(crate::specs::Hosts::vetted_in))]
fn vetted_in(
    alloc: Global,
    value: &Value,
    at: &Place,
    packages: &[Package],
) -> Result<NameList, WalkFault>
    ensures { Follows WalkFault.Memory result (vetted_in packages.now at.now (view value.now)) }
{
    match value.get("vetted") {
        Some(found) => read_list(
            alloc,
            found,
            &at.member("vetted"),
            |item, here| read_package_name(alloc, item, here, packages),
        ),
        None => Ok(package_names(alloc, packages)?),
    }
}

fn push_vetted(
    hosts: &[Host],
    index: usize,
    vetted: NameList,
    done: &mut HostList,
) -> Result<(), AllocError>
    ensures { OnOk result (done.new ≡ with_vetted done.old (slice_get hosts.now index) vetted) }
{
    if let Some(host) = hosts.get(index) {
        done.push(Host {
            name: host.name,
            parties: host.parties.clone()?,
            observing: host.observing.clone()?,
            vetted,
        })?;
    }
    Ok(())
}

#[tactic(auto, unfolding(crate::specs::Hosts::vetting_step))]
fn read_vetting_items(
    alloc: Global,
    items: &[Value],
    at: &Place,
    packages: &[Package],
    hosts: &[Host],
) -> Result<HostList, WalkFault>
    ensures { Follows WalkFault.Memory result (walk_items (vetting_step packages.now hosts.now at.now) 0 [] (items_view items.now)) }
{
    let mut done = HostList::new(alloc);
    'items: for (i, item) in items.iter().enumerate() {
        let vetted = vetted_in(alloc, item, &at.item(i), packages)?;
        push_vetted(hosts, i, vetted, &mut done)?;
    }
    Ok(done)
}

/// The participants `hosts` with the names of the packages that they have vetted, all of `packages` where the member `vetted` is absent. `value` is the
/// whole script. Unknown where a name is that of no package.
#[tactic(auto, unfolding(crate::specs::Hosts::vetting_in))]
pub fn vetting_in(
    alloc: Global,
    value: &Value,
    packages: &[Package],
    hosts: &[Host],
) -> Result<HostList, WalkFault>
    ensures { Follows WalkFault.Memory result (vetting_in packages.now hosts.now (view value.now)) }
{
    let found = participants_of(alloc, value)?;
    let root = Place::root(alloc);
    let at = root.member("participants");
    let items = read_items(found, &at)?;
    read_vetting_items(alloc, items, &at, packages, hosts)
}

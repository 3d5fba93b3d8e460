//! What the participants observe. `alloc` gives the memory for what is read; where memory is wanting, also for the place in a fault, the fault is
//! Memory.
ghost use Rattle.std.specs.Prelude.{◌≡◌, []};
ghost use Rattle.serde_json.specs.View.{view, items_view};
ghost use Rattle.ledger_terms.specs.Answers.{Follows, FollowsOn};
ghost use Rattle.json_walk.specs.Walk.{walk_items};
ghost use Rattle.script_read.specs.Observing.{observing_names_in, observed_party, observed_step, observed_of, observed_in};
ghost use Rattle.script_read.specs.Observing.{observing_host, observing_step, observing_of};

use crate::host::has_name;
use json_walk::{Place, WalkFault, read_items, read_list, read_name};
use lang_read::is_hosted;
use ledger_terms::{Host, HostList, NameList, PartySet, Text};
use serde_json::Value;
use std::alloc::Global;

/// The names in the member `observing` of the participant that is `value` at the place `at`, none where it is absent; Shape where it is no list of
/// names. Whether somebody confirms for them isn't tried yet.
#[tactic(auto, unfolding(crate::specs::Observing::observing_names_in))]
pub fn observing_names_in(alloc: Global, value: &Value, at: &Place) -> Result<NameList, WalkFault>
    ensures { Follows WalkFault.Memory result (observing_names_in at.now (view value.now)) }
{
    match value.get("observing") {
        Some(found) => read_list(
            alloc,
            found,
            &at.member("observing"),
            |item, here| read_name(item, here),
        ),
        None => Ok(NameList::new(alloc)),
    }
}

#[tactic(auto, unfolding(crate::specs::Observing::observed_party))]
fn push_observed(
    alloc: Global,
    value: &Value,
    at: &Place,
    hosts: &[Host],
    own: &PartySet,
    observed: &mut NameList,
) -> Result<(), WalkFault>
    ensures { FollowsOn WalkFault.Memory observed.new result
        (observed_party hosts.now own.now at.now observed.old (view value.now)) }
{
    let name = read_name(value, at)?;
    if !is_hosted(hosts, name) {
        return Err(WalkFault::Unknown {
            path: at.pointer()?,
            name: Text::of(alloc, name.as_str())?,
        });
    }
    if own.contains(name) || has_name(observed.as_slice(), name) {
        return Err(WalkFault::Repeated {
            path: at.pointer()?,
        });
    }
    observed.push(name)?;
    Ok(())
}

fn read_observed_items(
    alloc: Global,
    items: &[Value],
    at: &Place,
    hosts: &[Host],
    own: &PartySet,
) -> Result<NameList, WalkFault>
    ensures { Follows WalkFault.Memory result (walk_items (observed_step hosts.now own.now at.now) 0 [] (items_view items.now)) }
{
    let mut observed = NameList::new(alloc);
    'items: for (i, item) in items.iter().enumerate() {
        push_observed(alloc, item, &at.item(i), hosts, own, &mut observed)?;
    }
    Ok(observed)
}

/// The parties of a list, for each of which one of the participants confirms, though not this one, whose own they aren't.
#[tactic(auto, unfolding(crate::specs::Observing::observed_of))]
fn read_observed(
    alloc: Global,
    value: &Value,
    at: &Place,
    hosts: &[Host],
    own: &PartySet,
) -> Result<NameList, WalkFault>
    ensures { Follows WalkFault.Memory result (observed_of hosts.now own.now at.now (view value.now)) }
{
    let items = read_items(value, at)?;
    read_observed_items(alloc, items, at, hosts, own)
}

#[tactic(auto, unfolding(crate::specs::Observing::observed_in))]
fn observed_in(
    alloc: Global,
    value: &Value,
    at: &Place,
    hosts: &[Host],
    own: &PartySet,
) -> Result<NameList, WalkFault>
    ensures { Follows WalkFault.Memory result (observed_in hosts.now own.now at.now (view value.now)) }
{
    match value.get("observing") {
        Some(found) => read_observed(alloc, found, &at.member("observing"), hosts, own),
        None => Ok(NameList::new(alloc)),
    }
}

#[tactic(auto, unfolding(crate::specs::Observing::observing_host))]
fn observing_host(
    alloc: Global,
    value: &Value,
    at: &Place,
    hosts: &[Host],
    host: &Host,
) -> Result<Host, WalkFault>
    ensures { Follows WalkFault.Memory result (observing_host hosts.now host.now at.now (view value.now)) }
{
    let observed = observed_in(alloc, value, at, hosts, &host.parties)?;
    Ok(Host {
        name: host.name,
        parties: host.parties.clone()?,
        observing: PartySet::of(alloc, &observed)?,
        vetted: NameList::new(alloc),
    })
}

fn push_observing(
    alloc: Global,
    value: &Value,
    at: &Place,
    index: usize,
    hosts: &[Host],
    done: &mut HostList,
) -> Result<(), WalkFault>
    ensures { FollowsOn WalkFault.Memory done.new result (observing_step hosts.now at.now index done.old (view value.now)) }
{
    if let Some(host) = hosts.get(index) {
        let one = observing_host(alloc, value, &at.item(index), hosts, host)?;
        done.push(one)?;
    }
    Ok(())
}

fn read_observing_items(
    alloc: Global,
    items: &[Value],
    at: &Place,
    hosts: &[Host],
) -> Result<HostList, WalkFault>
    ensures { Follows WalkFault.Memory result (walk_items (observing_step hosts.now at.now) 0 [] (items_view items.now)) }
{
    let mut done = HostList::new(alloc);
    'items: for (i, item) in items.iter().enumerate() {
        push_observing(alloc, item, at, i, hosts, &mut done)?;
    }
    Ok(done)
}

/// The participants `hosts` with what they observe, read in a second walk through `value`, the list of participants at the place `at`, once all of them
/// are known. Unknown at a party for which nobody confirms, Repeated at one for which the participant itself confirms or that it has named before.
#[tactic(auto, unfolding(crate::specs::Observing::observing_of))]
pub fn read_observing(
    alloc: Global,
    value: &Value,
    at: &Place,
    hosts: &[Host],
) -> Result<HostList, WalkFault>
    ensures { Follows WalkFault.Memory result (observing_of hosts.now at.now (view value.now)) }
{
    let items = read_items(value, at)?;
    read_observing_items(alloc, items, at, hosts)
}

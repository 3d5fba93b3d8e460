//! The participants of a script. `alloc` gives the memory for what is read; where memory is wanting, also for the place in a fault, the fault is
//! Memory.
ghost use Rattle.std.specs.Prelude.{◌≡◌, ◌≢◌, ◌≤◌, ◌+◌, MatchResult, IfOk, OnOk, Ok, Err, [], length};
ghost use Rattle.serde_json.specs.View.{view, items_view};
ghost use Rattle.ledger_terms.specs.Answers.{Follows, FollowsOn, FollowsAs};
ghost use Rattle.json_walk.specs.Walk.{walk_items};
ghost use Rattle.ledger_terms.specs.Parties.{has_party, set_of};
ghost use Rattle.script_read.specs.Hosts.{is_participant, new_party_step, party_items_in, new_name_in, has_host_members, host_of};
ghost use Rattle.script_read.specs.Hosts.{host_step, hosts_of, root_member, participants_at, participants_of, hosts_in};

use crate::observing::{observing_names_in, read_observing};
use json_walk::{
    PARTICIPANTS, PARTIES, Place, WalkFault, check_limit, fits, member, name_in, read_few_items,
    read_items, read_name, shape,
};
use lang_read::is_hosted;
use ledger_terms::{Host, HostList, Name, NameList, PartySet};
use serde_json::Value;
use std::alloc::{AllocError, Global};

/// Whether one of the participants has the name, so that a text may name it and a new participant may not have it.
pub fn is_participant(hosts: &[Host], name: Name) -> bool
    ensures { result ≡ is_participant hosts.now name }
{
    hosts.iter().any(|host| host.name == name)
}

/// Whether `name` is one of the names, as of the parties of a participant that were read so far.
pub fn has_name(names: &[Name], name: Name) -> bool
    ensures { result ≡ has_party names.now name }
{
    names.iter().any(|known| *known == name)
}

#[tactic(auto, unfolding(crate::specs::Hosts::new_party_step))]
fn push_new_party(
    value: &Value,
    at: &Place,
    index: usize,
    hosts: &[Host],
    parties: &mut NameList,
) -> Result<(), WalkFault>
    ensures { FollowsOn WalkFault.Memory parties.new result
        (new_party_step hosts.now at.now index parties.old (view value.now)) }
{
    let here = at.item(index);
    let name = read_name(value, &here)?;
    if is_hosted(hosts, name) || has_name(parties.as_slice(), name) {
        return Err(WalkFault::Repeated {
            path: here.pointer()?,
        });
    }
    parties.push(name)?;
    Ok(())
}

fn read_new_parties(
    alloc: Global,
    items: &[Value],
    at: &Place,
    hosts: &[Host],
) -> Result<NameList, WalkFault>
    ensures { Follows WalkFault.Memory result (walk_items (new_party_step hosts.now at.now) 0 [] (items_view items.now)) }
{
    let mut parties = NameList::new(alloc);
    'items: for (i, item) in items.iter().enumerate() {
        push_new_party(item, at, i, hosts, &mut parties)?;
    }
    Ok(parties)
}

#[tactic(auto, using(json_walk::proofs::Items::item_count_view), unfolding(crate::specs::Hosts::party_items_in))]
fn party_items_in<'v>(value: &'v Value, at: &Place, count: u64) -> Result<&'v [Value], WalkFault>
    requires { count ≤ PARTIES.most }
    ensures first { MatchResult result (λ v. party_items_in count at.now (view value.now) ≡ Ok (items_view v.now))
        (λ e. e ≢ WalkFault.Memory → party_items_in count at.now (view value.now) ≡ Err e) }
    ensures few { IfOk result (λ v. count + length v.now ≤ PARTIES.most) }
{
    let found = member(value, at, "parties")?;
    let here = at.member("parties");
    let items = read_items(found, &here)?;
    check_limit(&here, PARTIES, count + items.len() as u64)?;
    Ok(items)
}

#[tactic(auto, unfolding(crate::specs::Hosts::new_name_in))]
fn new_name_in(value: &Value, at: &Place, hosts: &[Host]) -> Result<Name, WalkFault>
    ensures { Follows WalkFault.Memory result (new_name_in hosts.now at.now (view value.now)) }
{
    let name = name_in(value, at, "name")?;
    if is_participant(hosts, name) {
        return Err(WalkFault::Repeated {
            path: at.member("name").pointer()?,
        });
    }
    Ok(name)
}

#[tactic(auto, unfolding(crate::specs::Hosts::has_host_members))]
fn has_host_members(value: &Value) -> bool
    ensures { result ≡ has_host_members (view value.now) }
{
    fits(value, &["name", "parties"], &["observing", "vetted"])
}

fn new_host(alloc: Global, name: Name, parties: &NameList) -> Result<Host, AllocError>
    ensures { IfOk result (λ h. h ≡ record { name = name; parties = set_of parties.now; observing = []; vetted = [] }) }
{
    Ok(Host {
        name,
        parties: PartySet::of(alloc, parties)?,
        observing: PartySet::new(alloc),
        vetted: NameList::new(alloc),
    })
}

/// Puts a participant behind the others, where `count` is for how many parties they confirm, and gives that count with its own parties. Of what
/// it observes only the spelling is tried here, since a later participant may be the one that confirms.
#[tactic(auto, using(json_walk::proofs::Items::item_count_view), unfolding(crate::specs::Hosts::host_of))]
fn push_host(
    alloc: Global,
    value: &Value,
    at: &Place,
    hosts: &mut HostList,
    count: u64,
) -> Result<u64, WalkFault>
    requires { count ≤ PARTIES.most }
    ensures first { FollowsAs WalkFault.Memory (λ n. (hosts.new, n)) result (host_of (hosts.old, count) at.now (view value.now)) }
    ensures few { IfOk result (λ n. n ≤ PARTIES.most) }
    ensures one { OnOk result (length hosts.new ≡ length hosts.old + 1) }
{
    if !has_host_members(value) {
        return shape(at);
    }
    let name = new_name_in(value, at, hosts.as_slice())?;
    let items = party_items_in(value, at, count)?;
    let parties = read_new_parties(alloc, items, &at.member("parties"), hosts.as_slice())?;
    observing_names_in(alloc, value, at)?;
    hosts.push(new_host(alloc, name, &parties)?)?;
    Ok(count + items.len() as u64)
}

fn read_host_items(alloc: Global, items: &[Value], at: &Place) -> Result<(HostList, u64), WalkFault>
    requires { length items.now ≤ PARTICIPANTS.most }
    ensures first { Follows WalkFault.Memory result (walk_items (host_step at.now) 0 ([], 0) (items_view items.now)) }
    ensures few { IfOk result (λ s. length s.0 ≤ PARTICIPANTS.most) }
{
    let mut hosts = HostList::new(alloc);
    let mut count = 0;
    'items: for (i, item) in items.iter().enumerate() {
        let here = at.item(i);
        count = push_host(alloc, item, &here, &mut hosts, count)?;
    }
    Ok((hosts, count))
}

#[tactic(auto, unfolding(crate::specs::Hosts::hosts_of))]
fn read_hosts(alloc: Global, value: &Value) -> Result<(HostList, u64), WalkFault>
    ensures first { Follows WalkFault.Memory result (hosts_of participants_at (view value.now)) }
    ensures few { IfOk result (λ s. length s.0 ≤ PARTICIPANTS.most) }
{
    let root = Place::root(alloc);
    let at = root.member("participants");
    let items = read_few_items(value, &at, PARTICIPANTS)?;
    read_host_items(alloc, items, &at)
}

#[tactic(auto, unfolding(crate::specs::Hosts::root_member))]
fn root_member<'v>(alloc: Global, value: &'v Value, name: &str) -> Result<&'v Value, WalkFault>
    ensures { MatchResult result (λ v. root_member name.now (view value.now) ≡ Ok (view v.now))
        (λ e. e ≢ WalkFault.Memory → root_member name.now (view value.now) ≡ Err e) }
{
    member(value, &Place::root(alloc), name)
}

/// The value of the member `participants` of the script that is `value`; Shape where it is absent.
#[tactic(auto, unfolding(crate::specs::Hosts::participants_of))]
pub fn participants_of(alloc: Global, value: &Value) -> Result<&Value, WalkFault>
    ensures { MatchResult result (λ v. participants_of (view value.now) ≡ Ok (view v.now))
        (λ e. e ≢ WalkFault.Memory → participants_of (view value.now) ≡ Err e) }
{
    root_member(alloc, value, "participants")
}

/// The participants of the script that is `value`, with their parties and what they observe, but for what they have vetted; or the first fault.
#[tactic(auto, unfolding(crate::specs::Hosts::hosts_in))]
pub fn hosts_in(alloc: Global, value: &Value) -> Result<HostList, WalkFault>
    ensures first { Follows WalkFault.Memory result (hosts_in (view value.now)) }
    ensures few { IfOk result (λ h. length h ≤ PARTICIPANTS.most) }
{
    let found = participants_of(alloc, value)?;
    let (hosts, _) = read_hosts(alloc, found)?;
    let root = Place::root(alloc);
    read_observing(alloc, found, &root.member("participants"), hosts.as_slice())
}

//! The rules of a script. `alloc` gives the memory for what is read; where memory is wanting, also for the place in a fault, the fault is Memory.
ghost use Rattle.std.specs.Prelude.{◌≡◌, ◌≤◌, [], length, IfOk, OnOk};
ghost use Rattle.serde_json.specs.View.{view, items_view};
ghost use Rattle.ledger_terms.specs.Answers.{Follows, FollowsOn};
ghost use Rattle.json_walk.specs.Walk.{walk_items};
ghost use Rattle.script_read.specs.Triggers.{has_rule_members, is_rule, own_command_in, rule_name_in, rule_of, rule_participant_in, rule_party_in};
ghost use Rattle.script_read.specs.Triggers.{rule_step, rules_of, triggers_in};

use crate::participant::read_participant;
use json_walk::{
    Place, RULE_NAME_BYTES, RULES, WalkFault, check_limit, fits, member, name_in, read_few_items,
    shape,
};
use lang_read::read_party;
use ledger_terms::{Name, ParticipantId, Topology};
use serde_json::Value;
use std::alloc::Global;
use trigger_rules::{Rule, RuleList, is_rule_command};

fn is_rule(rules: &[Rule], name: Name) -> bool
    ensures { result ≡ is_rule rules.now name }
{
    rules.iter().any(|rule| rule.name == name)
}

#[tactic(auto, unfolding(crate::specs::Triggers::has_rule_members))]
fn has_rule_members(value: &Value) -> bool
    ensures { result ≡ has_rule_members (view value.now) }
{
    fits(value, &["name", "participant", "party"], &[])
}

/// The name of a rule, which none so far has.
#[tactic(auto, unfolding(crate::specs::Triggers::rule_name_in))]
fn rule_name_in(value: &Value, at: &Place, rules: &[Rule]) -> Result<Name, WalkFault>
    ensures { Follows WalkFault.Memory result (rule_name_in rules.now at.now (view value.now)) }
{
    let name = name_in(value, at, "name")?;
    let here = at.member("name");
    check_limit(&here, RULE_NAME_BYTES, name.as_bytes().len() as u64)?;
    if is_rule(rules, name) {
        return Err(WalkFault::Repeated {
            path: here.pointer()?,
        });
    }
    Ok(name)
}

#[tactic(auto, unfolding(crate::specs::Triggers::rule_participant_in))]
fn rule_participant_in(
    alloc: Global,
    value: &Value,
    at: &Place,
    topology: &Topology,
) -> Result<ParticipantId, WalkFault>
    requires { length topology.now.hosts ≤ 256 }
    ensures { Follows WalkFault.Memory result (rule_participant_in topology.now.hosts at.now (view value.now)) }
{
    let found = member(value, at, "participant")?;
    read_participant(alloc, found, &at.member("participant"), topology)
}

#[tactic(auto, unfolding(crate::specs::Triggers::rule_party_in))]
fn rule_party_in(
    alloc: Global,
    value: &Value,
    at: &Place,
    topology: &Topology,
) -> Result<Name, WalkFault>
    ensures { Follows WalkFault.Memory result (rule_party_in topology.now.hosts at.now (view value.now)) }
{
    let found = member(value, at, "party")?;
    read_party(alloc, found, &at.member("party"), topology)
}

/// Puts a rule behind the others.
#[tactic(auto, unfolding(crate::specs::Triggers::rule_of))]
fn push_rule(
    alloc: Global,
    value: &Value,
    at: &Place,
    topology: &Topology,
    rules: &mut RuleList,
) -> Result<(), WalkFault>
    requires { length topology.now.hosts ≤ 256 }
    ensures { FollowsOn WalkFault.Memory rules.new result (rule_of topology.now.hosts rules.old at.now (view value.now)) }
{
    if !has_rule_members(value) {
        return shape(at);
    }
    let name = rule_name_in(value, at, rules.as_slice())?;
    let participant = rule_participant_in(alloc, value, at, topology)?;
    let party = rule_party_in(alloc, value, at, topology)?;
    rules.push(Rule {
        name,
        participant,
        party,
    })?;
    Ok(())
}

fn read_rule_items(
    alloc: Global,
    items: &[Value],
    at: &Place,
    topology: &Topology,
) -> Result<RuleList, WalkFault>
    requires { length topology.now.hosts ≤ 256 }
    ensures { Follows WalkFault.Memory result (walk_items (rule_step topology.now.hosts at.now) 0 [] (items_view items.now)) }
{
    let mut rules = RuleList::new(alloc);
    'items: for (i, item) in items.iter().enumerate() {
        push_rule(alloc, item, &at.item(i), topology, &mut rules)?;
    }
    Ok(rules)
}

#[tactic(auto, unfolding(crate::specs::Triggers::rules_of))]
fn read_rules(
    alloc: Global,
    value: &Value,
    at: &Place,
    topology: &Topology,
) -> Result<RuleList, WalkFault>
    requires { length topology.now.hosts ≤ 256 }
    ensures { Follows WalkFault.Memory result (rules_of topology.now.hosts at.now (view value.now)) }
{
    let items = read_few_items(value, at, RULES)?;
    read_rule_items(alloc, items, at, topology)
}

/// The rules of the script that is `value`, in order, none where the member `triggers` is absent; or the first fault. Their participants and parties
/// have to be those of the topology, else Unknown; two of one name are Repeated.
#[tactic(auto, unfolding(crate::specs::Triggers::triggers_in))]
pub fn triggers_in(alloc: Global, value: &Value, topology: &Topology) -> Result<RuleList, WalkFault>
    requires { length topology.now.hosts ≤ 256 }
    ensures { Follows WalkFault.Memory result (triggers_in topology.now.hosts (view value.now)) }
{
    match value.get("triggers") {
        Some(found) => {
            let root = Place::root(alloc);
            read_rules(alloc, found, &root.member("triggers"), topology)
        }
        None => Ok(RuleList::new(alloc)),
    }
}

/// The id of a command in the member `command` of `value`, a submission or a raw request of `participant` at the place `at`. It is Shape where it is
/// absent or no name, Repeated where it is the name of a rule of that participant with a hyphen and digits behind it, as the ids of what rules submit
/// are.
#[tactic(auto, unfolding(crate::specs::Triggers::own_command_in))]
pub fn own_command_in(
    value: &Value,
    at: &Place,
    rules: &RuleList,
    participant: ParticipantId,
) -> Result<Name, WalkFault>
    ensures { Follows WalkFault.Memory result (own_command_in rules.now participant at.now (view value.now)) }
{
    let command = name_in(value, at, "command")?;
    if is_rule_command(rules, participant, command) {
        return Err(WalkFault::Repeated {
            path: at.member("command").pointer()?,
        });
    }
    Ok(command)
}

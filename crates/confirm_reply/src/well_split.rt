//! Whether a view is split as its actions ask.
ghost use Rattle.std.specs.Prelude.{◌≡◌, ◌++◌, IfOk, OnOk, not, option_map, slice_get};
ghost use Rattle.std.specs.List.{list_all};
ghost use Rattle.ledger_terms.specs.Parties.{with_parties};
ghost use Rattle.ledger_model.specs.declared.roles.Roles.{Roles};
ghost use Rattle.confirm_reply.specs.Nodes.{actions_in, trees_in};
ghost use Rattle.confirm_reply.specs.WellSplit.{action_taken, actions_taken, confirmers_by, is_split_at, is_split_by};
ghost use Rattle.confirm_reply.specs.WellSplit.{role_where_there, roles_where_there, stays_in};

use crate::found_view::FoundView;
use crate::places::node_at;
use lang_eval::{Checked, RoleFault, Roles, roles};
use ledger_terms::{Action, ActionNode, PartySet};
use std::alloc::{AllocError, Global};

// Puts the action at a number at the end, where one stands there.
fn push_action<'n>(
    nodes: &[&'n ActionNode],
    number: usize,
    actions: &mut Vec<&'n Action>,
) -> Result<(), AllocError>
    ensures { OnOk result (actions_in actions.new.items ≡ actions_in actions.old.items ++ action_taken number (slice_get (trees_in nodes.now) number)) }
{
    if let Some(node) = node_at(nodes, number) {
        actions.push(&node.root.action)?;
    }
    Ok(())
}

// The actions that stand at numbers.
fn actions_at<'n>(
    alloc: Global,
    nodes: &[&'n ActionNode],
    numbers: &[usize],
) -> Result<Vec<&'n Action>, AllocError>
    ensures { IfOk result (λ actions. actions_in actions.items ≡ actions_taken (trees_in nodes.now) numbers.now) }
{
    let mut actions = Vec::new(alloc);
    for number in numbers {
        push_action(nodes, *number, &mut actions)?;
    }
    Ok(actions)
}

fn role_of(alloc: Global, checked: &Checked, action: &Action) -> Result<Option<Roles>, AllocError>
    ensures { IfOk result (λ found. found ≡ role_where_there checked.now action.now) }
{
    match roles(alloc, checked, action) {
        Ok(roles) => Ok(Some(roles)),
        Err(RoleFault::NoRoles) => Ok(None),
        Err(RoleFault::Memory) => Err(AllocError),
    }
}

// The roles of actions, where all have them.
fn all_roles(
    alloc: Global,
    checked: &Checked,
    actions: &[&Action],
) -> Result<Option<Vec<Roles>>, AllocError>
    ensures { IfOk result (λ found. option_map (λ v. v.items) found ≡ roles_where_there checked.now (actions_in actions.now)) }
{
    let mut found = Vec::new(alloc);
    for action in actions {
        let Some(roles) = role_of(alloc, checked, action)? else {
            return Ok(None);
        };
        found.push(roles)?;
    }
    Ok(Some(found))
}

fn roles_at(
    alloc: Global,
    checked: &Checked,
    nodes: &[&ActionNode],
    numbers: &[usize],
) -> Result<Option<Vec<Roles>>, AllocError>
    ensures { IfOk result (λ found. option_map (λ v. v.items) found ≡ roles_where_there checked.now (actions_taken (trees_in nodes.now) numbers.now)) }
{
    let actions = actions_at(alloc, nodes, numbers)?;
    all_roles(alloc, checked, actions.as_slice())
}

fn add_parties(set: &mut PartySet, more: &PartySet) -> Result<(), AllocError>
    ensures { OnOk result (set.new ≡ with_parties more.now set.old) }
{
    for party in more.as_slice() {
        set.insert(*party)?;
    }
    Ok(())
}

fn confirmers_by(alloc: Global, core: &[Roles]) -> Result<PartySet, AllocError>
    ensures { IfOk result (λ set. set ≡ confirmers_by core.now) }
{
    let mut set = PartySet::new(alloc);
    for roles in core {
        add_parties(&mut set, &roles.confirmers)?;
    }
    Ok(set)
}

// Whether actions with these roles all stay in the core of a view with these informees.
fn all_stay(core: &[Roles], informees: &PartySet) -> bool
    ensures { result ≡ list_all (stays_in informees.now) core.now }
{
    core.iter().all(|roles| roles.informees.subset(informees))
}

// Whether each of them starts a view below it.
fn all_start(below: &[Roles], informees: &PartySet) -> bool
    ensures { result ≡ list_all (λ (roles : Roles). not (stays_in informees.now roles)) below.now }
{
    below.iter().all(|roles| !roles.informees.subset(informees))
}

// Whether actions with these roles make a core with these informees and confirmers, and those begin the views directly below it.
fn is_split_by(
    alloc: Global,
    informees: &PartySet,
    confirmers: &PartySet,
    core: &[Roles],
    below: &[Roles],
) -> Result<bool, AllocError>
    ensures { IfOk result (λ b. b ≡ is_split_by informees.now confirmers.now core.now below.now) }
{
    let Some(first) = core.first() else {
        return Ok(false);
    };
    let is_stated = *informees == first.informees;
    let is_one = all_stay(&core[1..], &first.informees);
    let are_apart = all_start(below, &first.informees);
    let by_core = confirmers_by(alloc, core)?;
    Ok(is_stated && *confirmers == by_core && is_one && are_apart)
}

/// Whether the actions of the core of a view that is found, and those that begin the views directly below it (`starts`), have roles and make just
/// that view. `nodes` are all that is opened in pre-order.
pub(crate) fn is_well_split(
    alloc: Global,
    checked: &Checked,
    nodes: &[&ActionNode],
    found: &FoundView<'_>,
    starts: &[usize],
) -> Result<bool, AllocError>
    ensures { IfOk result (λ b. b ≡ is_split_at checked.now found.now.informees.now found.now.confirmers.now (trees_in nodes.now)
        found.now.core.items starts.now) }
{
    let Some(core) = roles_at(alloc, checked, nodes, found.core.as_slice())? else {
        return Ok(false);
    };
    let Some(below) = roles_at(alloc, checked, nodes, starts)? else {
        return Ok(false);
    };
    is_split_by(
        alloc,
        found.informees,
        found.confirmers,
        core.as_slice(),
        below.as_slice(),
    )
}

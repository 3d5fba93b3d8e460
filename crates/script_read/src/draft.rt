//! Drafts of actions, but for their children. `topology` has the participants and the parties that a text may name; another name is Unknown. `alloc`
//! gives the memory for what is read; where memory is wanting, also for the place in a fault, the fault is Memory.
ghost use Rattle.std.specs.Prelude.{◌≡◌};
ghost use Rattle.serde_json.specs.View.{view};
ghost use Rattle.ledger_terms.specs.Answers.{Follows, FollowsAs};
ghost use Rattle.ledger_terms.specs.Grown.{tree_of};
ghost use Rattle.script_read.specs.Drafts.{alone, actors_in, result_in, create_draft_of, has_fetch_members, fetch_draft_of, is_fetch, create_draft_in};
ghost use Rattle.script_read.specs.Drafts.{fetch_draft_in, has_draft_members, call_of, effect_of, exercise_draft_of, leaf_of};

use crate::arg::{args_in, read_arg};
use crate::command::is_create;
use crate::input::{input_in, read_instance};
use json_walk::{PARAMETERS, Place, WalkFault, fits, member, name_in, shape, truth_in};
use lang_read::read_parties;
use ledger_terms::{
    Arg, ArgList, Draft, DraftAction, DraftList, Input, Name, PartySet, Topology, Tree,
};
use serde_json::Value;
use std::alloc::Global;

#[tactic(auto, unfolding(crate::specs::Drafts::actors_in))]
fn actors_in(
    alloc: Global,
    value: &Value,
    at: &Place,
    topology: &Topology,
) -> Result<PartySet, WalkFault>
    ensures { Follows WalkFault.Memory result (actors_in topology.now.hosts at.now (view value.now)) }
{
    let found = member(value, at, "actors")?;
    read_parties(alloc, found, &at.member("actors"), topology)
}

#[tactic(auto, unfolding(crate::specs::Drafts::result_in))]
fn result_in(
    alloc: Global,
    value: &Value,
    at: &Place,
    topology: &Topology,
) -> Result<Arg, WalkFault>
    ensures { Follows WalkFault.Memory result (result_in topology.now.hosts at.now (view value.now)) }
{
    let found = member(value, at, "result")?;
    read_arg(alloc, found, &at.member("result"), topology)
}

fn alone(alloc: Global, action: DraftAction) -> Draft
    ensures { tree_of result ≡ alone action }
{
    Tree {
        root: action,
        below: DraftList::new(alloc),
    }
}

#[tactic(auto, unfolding(crate::specs::Drafts::create_draft_of))]
fn read_create(
    alloc: Global,
    value: &Value,
    at: &Place,
    topology: &Topology,
) -> Result<Draft, WalkFault>
    ensures { FollowsAs WalkFault.Memory tree_of result (create_draft_of topology.now.hosts at.now (view value.now)) }
{
    let (template, fields) = read_instance(alloc, value, at, topology)?;
    Ok(alone(alloc, DraftAction::Create { template, fields }))
}

#[tactic(auto, unfolding(crate::specs::Drafts::has_fetch_members))]
fn has_fetch_members(value: &Value) -> bool
    ensures { result ≡ has_fetch_members (view value.now) }
{
    fits(value, &["contract", "actors"], &[])
}

#[tactic(auto, unfolding(crate::specs::Drafts::fetch_draft_of))]
fn read_fetch(
    alloc: Global,
    value: &Value,
    at: &Place,
    topology: &Topology,
) -> Result<Draft, WalkFault>
    ensures { FollowsAs WalkFault.Memory tree_of result (fetch_draft_of topology.now.hosts at.now (view value.now)) }
{
    if !has_fetch_members(value) {
        return shape(at);
    }
    let contract = input_in(alloc, value, at, topology)?;
    let actors = actors_in(alloc, value, at, topology)?;
    Ok(alone(alloc, DraftAction::Fetch { contract, actors }))
}

/// Whether the value is an object with the member `fetch` alone, as the draft of a Fetch is.
#[tactic(auto, unfolding(crate::specs::Drafts::is_fetch))]
pub fn is_fetch(value: &Value) -> bool
    ensures { result ≡ is_fetch (view value.now) }
{
    fits(value, &["fetch"], &[])
}

#[tactic(auto, unfolding(crate::specs::Drafts::create_draft_in))]
fn create_in(
    alloc: Global,
    value: &Value,
    at: &Place,
    topology: &Topology,
) -> Result<Draft, WalkFault>
    ensures { FollowsAs WalkFault.Memory tree_of result (create_draft_in topology.now.hosts at.now (view value.now)) }
{
    let found = member(value, at, "create")?;
    read_create(alloc, found, &at.member("create"), topology)
}

#[tactic(auto, unfolding(crate::specs::Drafts::fetch_draft_in))]
fn fetch_in(
    alloc: Global,
    value: &Value,
    at: &Place,
    topology: &Topology,
) -> Result<Draft, WalkFault>
    ensures { FollowsAs WalkFault.Memory tree_of result (fetch_draft_in topology.now.hosts at.now (view value.now)) }
{
    let found = member(value, at, "fetch")?;
    read_fetch(alloc, found, &at.member("fetch"), topology)
}

/// The draft, without children, of the value at the place `at`, which the caller has found to be `{"create": ..}` or `{"fetch": ..}`; or the first
/// fault. Whatever isn't a Create is read as a Fetch. Participants and parties have to be those of the topology.
#[tactic(auto, unfolding(crate::specs::Drafts::leaf_of))]
pub fn read_leaf(
    alloc: Global,
    value: &Value,
    at: &Place,
    topology: &Topology,
) -> Result<Draft, WalkFault>
    ensures { FollowsAs WalkFault.Memory tree_of result (leaf_of topology.now.hosts at.now (view value.now)) }
{
    if is_create(value) {
        create_in(alloc, value, at, topology)
    } else {
        fetch_in(alloc, value, at, topology)
    }
}

#[tactic(auto, unfolding(crate::specs::Drafts::has_draft_members))]
fn has_draft_members(value: &Value) -> bool
    ensures { result ≡ has_draft_members (view value.now) }
{
    fits(
        value,
        &[
            "contract",
            "choice",
            "args",
            "actors",
            "consuming",
            "result",
            "children",
        ],
        &[],
    )
}

#[tactic(auto, unfolding(crate::specs::Drafts::call_of))]
fn read_call(
    alloc: Global,
    value: &Value,
    at: &Place,
    topology: &Topology,
) -> Result<(Input, Name, ArgList), WalkFault>
    ensures { Follows WalkFault.Memory result (call_of topology.now.hosts at.now (view value.now)) }
{
    let contract = input_in(alloc, value, at, topology)?;
    let choice = name_in(value, at, "choice")?;
    let args = args_in(alloc, value, at, "args", PARAMETERS, topology)?;
    Ok((contract, choice, args))
}

#[tactic(auto, unfolding(crate::specs::Drafts::effect_of))]
fn read_effect(
    alloc: Global,
    value: &Value,
    at: &Place,
    topology: &Topology,
) -> Result<(PartySet, bool, Arg), WalkFault>
    ensures { Follows WalkFault.Memory result (effect_of topology.now.hosts at.now (view value.now)) }
{
    let actors = actors_in(alloc, value, at, topology)?;
    let consuming = truth_in(value, at, "consuming")?;
    let result = result_in(alloc, value, at, topology)?;
    Ok((actors, consuming, result))
}

/// The drafted Exercise, without its children, of the object in `{"exercise": ..}` that is `value` at the place `at`; or the first fault.
/// Participants and parties have to be those of the topology.
#[tactic(auto, unfolding(crate::specs::Drafts::exercise_draft_of))]
pub fn read_exercise(
    alloc: Global,
    value: &Value,
    at: &Place,
    topology: &Topology,
) -> Result<DraftAction, WalkFault>
    ensures { Follows WalkFault.Memory result (exercise_draft_of topology.now.hosts at.now (view value.now)) }
{
    if !has_draft_members(value) {
        return shape(at);
    }
    let (contract, choice, args) = read_call(alloc, value, at, topology)?;
    let (actors, consuming, result) = read_effect(alloc, value, at, topology)?;
    Ok(DraftAction::Exercise {
        contract,
        choice,
        args,
        actors,
        consuming,
        result,
    })
}

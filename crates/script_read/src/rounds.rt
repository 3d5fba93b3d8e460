//! The rounds of a script. `topology` has the participants and the parties that a text may name; another name is Unknown. `alloc` gives the memory for
//! what is read; where memory is wanting, also for the place in a fault, the fault is Memory.
ghost use Rattle.std.specs.Prelude.{◌≡◌, ◌≤◌, [], length, IfOk, OnOk};
ghost use Rattle.serde_json.specs.View.{view, items_view};
ghost use Rattle.ledger_terms.specs.Answers.{Follows};
ghost use Rattle.json_walk.specs.Lists.{counted_of};
ghost use Rattle.script_read.specs.Rounds.{advance_in, participants_in, paused_in, restarts_in, hold_in, has_round_members, round_of};
ghost use Rattle.script_read.specs.Rounds.{rounds_in};

use crate::participant::read_participant;
use crate::raws::raws_in;
use crate::round::{Round, RoundList};
use crate::submission::submits_in;
use json_walk::{
    ADVANCE, Place, ROUNDS, SUBMISSIONS, WalkFault, fits, member, read_counted, read_integer,
    read_list, shape, truth_or,
};
use ledger_terms::{ParticipantIdList, Topology};
use serde_json::Value;
use std::alloc::Global;
use trigger_rules::RuleList;

#[tactic(auto, unfolding(crate::specs::Rounds::advance_in))]
fn advance_in(value: &Value, at: &Place) -> Result<u64, WalkFault>
    ensures { Follows WalkFault.Memory result (advance_in at.now (view value.now)) }
{
    match value.get("advance") {
        Some(found) => read_integer(found, &at.member("advance"), ADVANCE),
        None => Ok(0),
    }
}

#[tactic(auto, unfolding(crate::specs::Rounds::participants_in))]
fn participants_in(
    alloc: Global,
    value: &Value,
    at: &Place,
    name: &str,
    topology: &Topology,
) -> Result<ParticipantIdList, WalkFault>
    requires { length topology.now.hosts ≤ 256 }
    ensures { Follows WalkFault.Memory result (participants_in topology.now.hosts at.now name.now (view value.now)) }
{
    match value.get(name) {
        Some(found) => read_list(
            alloc,
            found,
            &at.member(name),
            |item, here| read_participant(alloc, item, here, topology),
        ),
        None => Ok(ParticipantIdList::new(alloc)),
    }
}

#[tactic(auto, unfolding(crate::specs::Rounds::paused_in))]
fn paused_in(
    alloc: Global,
    value: &Value,
    at: &Place,
    topology: &Topology,
) -> Result<ParticipantIdList, WalkFault>
    requires { length topology.now.hosts ≤ 256 }
    ensures { Follows WalkFault.Memory result (paused_in topology.now.hosts at.now (view value.now)) }
{
    participants_in(alloc, value, at, "paused", topology)
}

#[tactic(auto, unfolding(crate::specs::Rounds::restarts_in))]
fn restarts_in(
    alloc: Global,
    value: &Value,
    at: &Place,
    topology: &Topology,
) -> Result<ParticipantIdList, WalkFault>
    requires { length topology.now.hosts ≤ 256 }
    ensures { Follows WalkFault.Memory result (restarts_in topology.now.hosts at.now (view value.now)) }
{
    participants_in(alloc, value, at, "restart", topology)
}

#[tactic(auto, unfolding(crate::specs::Rounds::hold_in))]
fn hold_in(value: &Value, at: &Place) -> Result<bool, WalkFault>
    ensures { Follows WalkFault.Memory result (hold_in at.now (view value.now)) }
{
    truth_or(value, at, "hold_verdicts")
}

#[tactic(auto, unfolding(crate::specs::Rounds::has_round_members))]
fn has_round_members(value: &Value) -> bool
    ensures { result ≡ has_round_members (view value.now) }
{
    fits(
        value,
        &[],
        &[
            "advance",
            "paused",
            "hold_verdicts",
            "submits",
            "raw",
            "restart",
        ],
    )
}

/// A round, and the number of submissions with its own. `before` is the number of those in the rounds before.
#[tactic(auto, unfolding(crate::specs::Rounds::round_of))]
fn read_round(
    alloc: Global,
    value: &Value,
    at: &Place,
    before: u64,
    topology: &Topology,
    rules: &RuleList,
) -> Result<(Round, u64), WalkFault>
    requires known { length topology.now.hosts ≤ 256 }
    requires few { before ≤ SUBMISSIONS.most }
    ensures first { Follows WalkFault.Memory result (round_of topology.now.hosts rules.now before at.now (view value.now)) }
    ensures few { IfOk result (λ s. s.1 ≤ SUBMISSIONS.most) }
{
    if !has_round_members(value) {
        return shape(at);
    }
    let advance = advance_in(value, at)?;
    let paused = paused_in(alloc, value, at, topology)?;
    let hold_verdicts = hold_in(value, at)?;
    let (submits, count) = submits_in(alloc, value, at, before, topology, rules)?;
    let raws = raws_in(alloc, value, at, topology, rules)?;
    let restarts = restarts_in(alloc, value, at, topology)?;
    let round = Round {
        advance,
        paused,
        hold_verdicts,
        submits,
        raws,
        restarts,
    };
    Ok((round, count))
}

fn read_rounds(
    alloc: Global,
    value: &Value,
    at: &Place,
    topology: &Topology,
    rules: &RuleList,
) -> Result<(RoundList, u64), WalkFault>
    requires { length topology.now.hosts ≤ 256 }
    ensures { Follows WalkFault.Memory result (counted_of (round_of topology.now.hosts rules.now) at.now ROUNDS (view value.now)) }
{
    read_counted(
        alloc,
        value,
        at,
        ROUNDS,
        SUBMISSIONS.most,
        |item, here, before|
            requires known { length topology.now.hosts ≤ 256 }
            requires few { before ≤ SUBMISSIONS.most }
        { read_round(alloc, item, here, before, topology, rules) },
    )
}

/// The rounds of the script that is `value`, in order, or the first fault. `topology` has its participants, and `rules` are its rules: a submission or
/// a raw request whose command's id is the name of a rule of its participant with a hyphen and digits behind it is Repeated.
#[tactic(auto, unfolding(crate::specs::Rounds::rounds_in))]
pub fn rounds_in(
    alloc: Global,
    value: &Value,
    topology: &Topology,
    rules: &RuleList,
) -> Result<RoundList, WalkFault>
    requires { length topology.now.hosts ≤ 256 }
    ensures { Follows WalkFault.Memory result (rounds_in topology.now.hosts rules.now (view value.now)) }
{
    let root = Place::root(alloc);
    let found = member(value, &root, "rounds")?;
    let (rounds, _) = read_rounds(alloc, found, &root.member("rounds"), topology, rules)?;
    Ok(rounds)
}

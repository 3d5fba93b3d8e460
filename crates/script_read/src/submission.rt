//! Submissions. `topology` has the participants and the parties that a text may name; another name is Unknown. `alloc` gives the memory for what is
//! read; where memory is wanting, also for the place in a fault, the fault is Memory.
ghost use Rattle.std.specs.Prelude.{◌≡◌, ◌≤◌, ◌+◌, [], length, IfOk};
ghost use Rattle.serde_json.specs.View.{view};
ghost use Rattle.ledger_terms.specs.Answers.{Follows};
ghost use Rattle.script_read.specs.Rounds.{act_as_in, time_of, time_in, ledger_time_in, is_prepared, submission_of, submits_of, submits_in};

use crate::participant::participant_in;
use crate::triggers::own_command_in;
use crate::what::{are_commands, what_in};
use json_walk::{
    ACT_AS, LEDGER_TIME, Place, SUBMISSIONS, WalkFault, check_limit, fits, member, read_each,
    read_few, read_integer, read_items, shape,
};
use lang_read::read_party;
use ledger_terms::{PartySet, Submission, SubmissionList, Topology};
use serde_json::Value;
use std::alloc::Global;
use trigger_rules::RuleList;

#[tactic(auto, unfolding(crate::specs::Rounds::act_as_in))]
fn act_as_in(
    alloc: Global,
    value: &Value,
    at: &Place,
    topology: &Topology,
) -> Result<PartySet, WalkFault>
    ensures { Follows WalkFault.Memory result (act_as_in topology.now.hosts at.now (view value.now)) }
{
    let found = member(value, at, "act_as")?;
    let names = read_few(
        alloc,
        found,
        &at.member("act_as"),
        ACT_AS,
        |item, here| read_party(alloc, item, here, topology),
    )?;
    Ok(PartySet::of(alloc, &names)?)
}

#[tactic(auto, unfolding(crate::specs::Rounds::time_of))]
fn read_time(value: &Value, at: &Place) -> Result<Option<u64>, WalkFault>
    ensures { Follows WalkFault.Memory result (time_of at.now (view value.now)) }
{
    let time = read_integer(value, at, LEDGER_TIME)?;
    Ok(Some(time))
}

#[tactic(auto, unfolding(crate::specs::Rounds::time_in))]
fn time_in(value: &Value, at: &Place, name: &str) -> Result<Option<u64>, WalkFault>
    ensures { Follows WalkFault.Memory result (time_in at.now name.now (view value.now)) }
{
    match value.get(name) {
        Some(found) => read_time(found, &at.member(name)),
        None => Ok(None),
    }
}

#[tactic(auto, unfolding(crate::specs::Rounds::ledger_time_in))]
fn ledger_time_in(value: &Value, at: &Place) -> Result<Option<u64>, WalkFault>
    ensures { Follows WalkFault.Memory result (ledger_time_in at.now (view value.now)) }
{
    time_in(value, at, "ledger_time")
}

#[tactic(auto, unfolding(crate::specs::Rounds::is_prepared))]
fn is_prepared(value: &Value) -> bool
    ensures { result ≡ is_prepared (view value.now) }
{
    fits(
        value,
        &["participant", "command", "act_as", "prepared"],
        &["ledger_time", "seed_of"],
    )
}

#[tactic(auto, unfolding(crate::specs::Rounds::submission_of))]
fn read_submission(
    alloc: Global,
    value: &Value,
    at: &Place,
    topology: &Topology,
    rules: &RuleList,
) -> Result<Submission, WalkFault>
    requires { length topology.now.hosts ≤ 256 }
    ensures { Follows WalkFault.Memory result (submission_of topology.now.hosts rules.now at.now (view value.now)) }
{
    if !(are_commands(value) || is_prepared(value)) {
        return shape(at);
    }
    let participant = participant_in(alloc, value, at, topology)?;
    let command = own_command_in(value, at, rules, participant)?;
    let act_as = act_as_in(alloc, value, at, topology)?;
    let ledger_time = ledger_time_in(value, at)?;
    let what = what_in(alloc, value, at, topology)?;
    Ok(Submission {
        participant,
        command,
        act_as,
        ledger_time,
        what,
    })
}

#[tactic(auto, using(json_walk::proofs::Items::item_count_view), unfolding(crate::specs::Rounds::submits_of))]
fn read_submits(
    alloc: Global,
    value: &Value,
    at: &Place,
    before: u64,
    topology: &Topology,
    rules: &RuleList,
) -> Result<(SubmissionList, u64), WalkFault>
    requires known { length topology.now.hosts ≤ 256 }
    requires few { before ≤ SUBMISSIONS.most }
    ensures first { Follows WalkFault.Memory result (submits_of topology.now.hosts rules.now before at.now (view value.now)) }
    ensures few { IfOk result (λ s. s.1 ≤ SUBMISSIONS.most) }
{
    let items = read_items(value, at)?;
    let count = before + items.len() as u64;
    check_limit(at, SUBMISSIONS, count)?;
    let submits = read_each(
        alloc,
        items,
        at,
        |item, here| read_submission(alloc, item, here, topology, rules),
    )?;
    Ok((submits, count))
}

/// The submissions in the member `submits` of the round that is `value` at the place `at`, none where it is absent, and `before`, the number of
/// submissions in earlier rounds, with their number added; or the first fault: Limit where that sum is above 2,048, Repeated where a command's id is
/// one of a rule of `rules` (`own_command_in`).
#[tactic(auto, unfolding(crate::specs::Rounds::submits_in))]
pub fn submits_in(
    alloc: Global,
    value: &Value,
    at: &Place,
    before: u64,
    topology: &Topology,
    rules: &RuleList,
) -> Result<(SubmissionList, u64), WalkFault>
    requires known { length topology.now.hosts ≤ 256 }
    requires few { before ≤ SUBMISSIONS.most }
    ensures first { Follows WalkFault.Memory result (submits_in topology.now.hosts rules.now before at.now (view value.now)) }
    ensures few { IfOk result (λ s. s.1 ≤ SUBMISSIONS.most) }
{
    match value.get("submits") {
        Some(found) => read_submits(alloc, found, &at.member("submits"), before, topology, rules),
        None => Ok((SubmissionList::new(alloc), before)),
    }
}

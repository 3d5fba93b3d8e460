//! Raw requests. `topology` has the participants and the parties that a text may name; another name is Unknown. `alloc` gives the memory for what is
//! read; where memory is wanting, also for the place in a fault, the fault is Memory.
ghost use Rattle.std.specs.Prelude.{◌≡◌, ◌≤◌, length, IfOk};
ghost use Rattle.serde_json.specs.View.{view};
ghost use Rattle.ledger_terms.specs.Answers.{Follows};
ghost use Rattle.script_read.specs.Raws.{bytes_named, bytes_of, envelope_of, envelopes_in, confirming_in, mediator_in};
ghost use Rattle.script_read.specs.Raws.{has_raw_members, raw_of, raws_in};

use crate::participant::{participant_in, read_participant};
use crate::triggers::own_command_in;
use hex::{FromHexError, decode};
use json_walk::{
    Place, RAW_BYTES, RAWS, WalkFault, check_limit, fits, member, read_few, read_items, read_list,
    read_two, shape,
};
use ledger_terms::{
    Bytes, ParticipantIdList, RawEnvelope, RawEnvelopeList, RawRequest, RawRequestList, Topology,
};
use serde_json::Value;
use std::alloc::{AllocError, Global};
use trigger_rules::RuleList;

/// The bytes that hexadecimal digits of either case spell, two digits a byte.
fn bytes_named(alloc: Global, text: &str) -> Result<Option<Bytes>, AllocError>
    ensures { IfOk result (λ b. b ≡ bytes_named text.now) }
{
    match decode(alloc, text) {
        Ok(bytes) => Ok(Some(Bytes::of(bytes))),
        Err(FromHexError::OutOfMemory) => Err(AllocError),
        Err(_) => Ok(None),
    }
}

/// The bytes that a value spells.
#[tactic(auto, unfolding(crate::specs::Raws::bytes_of))]
fn read_bytes(alloc: Global, value: &Value, at: &Place) -> Result<Bytes, WalkFault>
    ensures { Follows WalkFault.Memory result (bytes_of at.now (view value.now)) }
{
    let Some(text) = value.as_str() else {
        return shape(at);
    };
    let Some(bytes) = bytes_named(alloc, text)? else {
        return shape(at);
    };
    check_limit(at, RAW_BYTES, bytes.len() as u64)?;
    Ok(bytes)
}

#[tactic(auto, unfolding(crate::specs::Raws::envelope_of))]
fn read_envelope(
    alloc: Global,
    value: &Value,
    at: &Place,
    topology: &Topology,
) -> Result<RawEnvelope, WalkFault>
    requires { length topology.now.hosts ≤ 256 }
    ensures { Follows WalkFault.Memory result (envelope_of topology.now.hosts at.now (view value.now)) }
{
    let items = read_items(value, at)?;
    let (name, digits) = read_two(items, at)?;
    let to = read_participant(alloc, name, &at.item(0), topology)?;
    let bytes = read_bytes(alloc, digits, &at.item(1))?;
    Ok(RawEnvelope { to, bytes })
}

#[tactic(auto, unfolding(crate::specs::Raws::envelopes_in))]
fn envelopes_in(
    alloc: Global,
    value: &Value,
    at: &Place,
    topology: &Topology,
) -> Result<RawEnvelopeList, WalkFault>
    requires { length topology.now.hosts ≤ 256 }
    ensures { Follows WalkFault.Memory result (envelopes_in topology.now.hosts at.now (view value.now)) }
{
    let found = member(value, at, "envelopes")?;
    read_list(
        alloc,
        found,
        &at.member("envelopes"),
        |item, here| read_envelope(alloc, item, here, topology),
    )
}

#[tactic(auto, unfolding(crate::specs::Raws::confirming_in))]
fn confirming_in(
    alloc: Global,
    value: &Value,
    at: &Place,
    topology: &Topology,
) -> Result<ParticipantIdList, WalkFault>
    requires { length topology.now.hosts ≤ 256 }
    ensures { Follows WalkFault.Memory result (confirming_in topology.now.hosts at.now (view value.now)) }
{
    let found = member(value, at, "confirming")?;
    read_list(
        alloc,
        found,
        &at.member("confirming"),
        |item, here| read_participant(alloc, item, here, topology),
    )
}

#[tactic(auto, unfolding(crate::specs::Raws::mediator_in))]
fn mediator_in(alloc: Global, value: &Value, at: &Place) -> Result<Bytes, WalkFault>
    ensures { Follows WalkFault.Memory result (mediator_in at.now (view value.now)) }
{
    let found = member(value, at, "mediator")?;
    read_bytes(alloc, found, &at.member("mediator"))
}

#[tactic(auto, unfolding(crate::specs::Raws::has_raw_members))]
fn has_raw_members(value: &Value) -> bool
    ensures { result ≡ has_raw_members (view value.now) }
{
    fits(
        value,
        &[
            "participant",
            "command",
            "confirming",
            "mediator",
            "envelopes",
        ],
        &[],
    )
}

#[tactic(auto, unfolding(crate::specs::Raws::raw_of))]
fn read_raw(
    alloc: Global,
    value: &Value,
    at: &Place,
    topology: &Topology,
    rules: &RuleList,
) -> Result<RawRequest, WalkFault>
    requires { length topology.now.hosts ≤ 256 }
    ensures { Follows WalkFault.Memory result (raw_of topology.now.hosts rules.now at.now (view value.now)) }
{
    if !has_raw_members(value) {
        return shape(at);
    }
    let participant = participant_in(alloc, value, at, topology)?;
    let command = own_command_in(value, at, rules, participant)?;
    let confirming = confirming_in(alloc, value, at, topology)?;
    let mediator = mediator_in(alloc, value, at)?;
    let envelopes = envelopes_in(alloc, value, at, topology)?;
    Ok(RawRequest {
        participant,
        command,
        confirming,
        mediator,
        envelopes,
    })
}

/// The raw requests in the member `raw` of the round that is `value` at the place `at`, none where it is absent, or the first fault: Repeated where a
/// command's id is the name of a rule of its participant, one of `rules`, with a hyphen and digits behind it.
#[tactic(auto, unfolding(crate::specs::Raws::raws_in))]
pub fn raws_in(
    alloc: Global,
    value: &Value,
    at: &Place,
    topology: &Topology,
    rules: &RuleList,
) -> Result<RawRequestList, WalkFault>
    requires { length topology.now.hosts ≤ 256 }
    ensures { Follows WalkFault.Memory result (raws_in topology.now.hosts rules.now at.now (view value.now)) }
{
    match value.get("raw") {
        Some(found) => read_few(
            alloc,
            found,
            &at.member("raw"),
            RAWS,
            |item, here| read_raw(alloc, item, here, topology, rules),
        ),
        None => Ok(RawRequestList::new(alloc)),
    }
}

//! Writing the spelling of a state.
ghost use Rattle.std.specs.Prelude.{◌≡◌, ◌++◌, IfOk, OnOk};
ghost use Rattle.message_bytes.specs.Spellable.{IsSpellableResponse};
ghost use Rattle.message_bytes.specs.Spelling.{spell_participant};
ghost use Rattle.snapshot_store.specs.InRange.{AreCounted, IsState};
ghost use Rattle.snapshot_store.specs.Spelling.{spell_envelope, spell_head, spell_ids, spell_item, spell_items, spell_owner, spell_paths, spell_places};
ghost use Rattle.snapshot_store.specs.Spelling.{spell_position, spell_responses, spell_row, spell_rows, spell_state, spell_what};
ghost use Rattle.snapshot_store.specs.Spellable.{AreSpellableIds, AreSpellablePaths, AreSpellablePlaces, IsSpellableEnvelope, IsSpellableItem};
ghost use Rattle.snapshot_store.specs.Spellable.{IsSpellableRow, IsSpellableState, IsSpellableWhat};

use crate::typed::keeps_state;
use canton_model::SharedBytes;
use ledger_terms::{ActiveRow, ActiveRowList, Bytes, HashList, ParticipantId, PathList, U64List};
use message_bytes::{encode_path, encode_response, encode_verdict};
use node_state::{Item, ItemList, ItemWhat, NodeState, ResponseList};
use std::alloc::{AllocError, Global};
use wire_form::{encode_hash, encode_instance, encode_name, encode_truth, encode_u32, encode_u64};

/// The bytes that spell a state, which `decode` reads as that state again.
#[tactic(auto, unfolding(crate::specs::Spelling::spell_state))]
pub fn encode(alloc: Global, state: &NodeState) -> Result<Bytes, AllocError>
    requires { IsSpellableState state.now }
    ensures written { IfOk result (λ bytes. bytes ≡ spell_state state.now) }
    ensures in_range { IfOk result (λ bytes. IsState state.now) }
{
    keeps_state(state);
    let mut out = Bytes::new(alloc);
    encode_head(state, &mut out)?;
    encode_rows(&state.active, &mut out)?;
    encode_ids(&state.gone, &mut out)?;
    encode_items(&state.items, &mut out)?;
    encode_responses(&state.outbox, &mut out)?;
    encode_places(&state.done, &mut out)?;
    Ok(out)
}

#[tactic(auto, unfolding(crate::specs::Spelling::spell_owner))]
fn encode_owner(me: ParticipantId, out: &mut Bytes) -> Result<(), AllocError>
    ensures { OnOk result (out.new ≡ out.old ++ spell_owner me) }
{
    out.push(1)?;
    out.push(me.0)
}

#[tactic(auto, unfolding(crate::specs::Spelling::spell_position))]
fn encode_position(
    base: u64,
    base_time: u64,
    paused: bool,
    out: &mut Bytes,
) -> Result<(), AllocError>
    ensures { OnOk result (out.new ≡ out.old ++ spell_position base base_time paused) }
{
    encode_u64(base, out)?;
    encode_u64(base_time, out)?;
    encode_truth(paused, out)
}

#[tactic(auto, unfolding(crate::specs::Spelling::spell_head))]
fn encode_head(state: &NodeState, out: &mut Bytes) -> Result<(), AllocError>
    ensures { OnOk result (out.new ≡ out.old ++ spell_head state.now) }
{
    encode_owner(state.me, out)?;
    encode_position(state.base, state.base_time, state.paused, out)
}

fn encode_row(row: &ActiveRow, out: &mut Bytes) -> Result<(), AllocError>
    requires { IsSpellableRow row.now }
    ensures { OnOk result (out.new ≡ out.old ++ spell_row row.now) }
{
    encode_u64(row.created_at, out)?;
    encode_hash(&row.known.salt, out)?;
    encode_instance(&row.known.instance, out)
}

#[tactic(auto, unfolding(crate::specs::Spelling::spell_rows))]
fn encode_rows(rows: &ActiveRowList, out: &mut Bytes) -> Result<(), AllocError>
    requires { AreCounted IsSpellableRow rows.now }
    ensures { OnOk result (out.new ≡ out.old ++ spell_rows rows.now) }
{
    let rows = rows.as_slice();
    encode_u32(rows.len() as u32, out)?;
    for row in rows {
        encode_row(row, out)?;
    }
    Ok(())
}

#[tactic(auto, unfolding(crate::specs::Spelling::spell_ids))]
fn encode_ids(ids: &HashList, out: &mut Bytes) -> Result<(), AllocError>
    requires { AreSpellableIds ids.now }
    ensures { OnOk result (out.new ≡ out.old ++ spell_ids ids.now) }
{
    let ids = ids.as_slice();
    encode_u32(ids.len() as u32, out)?;
    for id in ids {
        encode_hash(id, out)?;
    }
    Ok(())
}

#[tactic(auto, unfolding(crate::specs::Spelling::spell_paths))]
fn encode_paths(paths: &PathList, out: &mut Bytes) -> Result<(), AllocError>
    requires { AreSpellablePaths paths.now }
    ensures { OnOk result (out.new ≡ out.old ++ spell_paths paths.now) }
{
    let paths = paths.as_slice();
    out.extend(&(paths.len() as u16).to_be_bytes())?;
    for path in paths {
        encode_path(path, out)?;
    }
    Ok(())
}

#[tactic(auto, unfolding(crate::specs::Spelling::spell_envelope))]
fn encode_envelope(envelope: &Option<SharedBytes>, out: &mut Bytes) -> Result<(), AllocError>
    requires { IsSpellableEnvelope envelope.now }
    ensures { OnOk result (out.new ≡ out.old ++ spell_envelope envelope.now) }
{
    match envelope {
        None => out.push(0),
        Some(bytes) => {
            let bytes = bytes.as_slice();
            out.push(1)?;
            encode_u32(bytes.len() as u32, out)?;
            out.extend(bytes)
        }
    }
}

fn encode_participant(participant: ParticipantId, out: &mut Bytes) -> Result<(), AllocError>
    ensures { OnOk result (out.new ≡ out.old ++ spell_participant participant) }
{
    out.push(participant.0)
}

#[tactic(auto, unfolding(crate::specs::Spelling::spell_what))]
fn encode_what(what: &ItemWhat, out: &mut Bytes) -> Result<(), AllocError>
    requires { IsSpellableWhat what.now }
    ensures { OnOk result (out.new ≡ out.old ++ spell_what what.now) }
{
    match what {
        ItemWhat::Nothing => out.push(0),
        ItemWhat::Request {
            sender,
            command,
            root,
            seen,
            confirmed,
            envelope,
        } => {
            out.push(1)?;
            encode_participant(*sender, out)?;
            encode_name(command, out)?;
            encode_hash(root, out)?;
            encode_paths(seen, out)?;
            encode_paths(confirmed, out)?;
            encode_envelope(envelope, out)
        }
        ItemWhat::Verdict(verdict) => {
            out.push(2)?;
            encode_verdict(verdict, out)
        }
    }
}

fn encode_item(item: &Item, out: &mut Bytes) -> Result<(), AllocError>
    requires { IsSpellableItem item.now }
    ensures { OnOk result (out.new ≡ out.old ++ spell_item item.now) }
{
    encode_u64(item.time, out)?;
    encode_what(&item.what, out)
}

#[tactic(auto, unfolding(crate::specs::Spelling::spell_items))]
fn encode_items(items: &ItemList, out: &mut Bytes) -> Result<(), AllocError>
    requires { AreCounted IsSpellableItem items.now }
    ensures { OnOk result (out.new ≡ out.old ++ spell_items items.now) }
{
    let items = items.as_slice();
    encode_u32(items.len() as u32, out)?;
    for item in items {
        encode_item(item, out)?;
    }
    Ok(())
}

#[tactic(auto, unfolding(crate::specs::Spelling::spell_responses))]
fn encode_responses(responses: &ResponseList, out: &mut Bytes) -> Result<(), AllocError>
    requires { AreCounted IsSpellableResponse responses.now }
    ensures { OnOk result (out.new ≡ out.old ++ spell_responses responses.now) }
{
    let responses = responses.as_slice();
    encode_u32(responses.len() as u32, out)?;
    for response in responses {
        encode_response(response, out)?;
    }
    Ok(())
}

#[tactic(auto, unfolding(crate::specs::Spelling::spell_places))]
fn encode_places(places: &U64List, out: &mut Bytes) -> Result<(), AllocError>
    requires { AreSpellablePlaces places.now }
    ensures { OnOk result (out.new ≡ out.old ++ spell_places places.now) }
{
    let places = places.as_slice();
    encode_u32(places.len() as u32, out)?;
    for place in places {
        encode_u64(*place, out)?;
    }
    Ok(())
}

//! What the types keep of a state: names are names, hashes have 32 bytes, and numbers fit. So a state that has a spelling is in range, and
//! its spelling is read as it again. These read what they tell of, and answer nothing.
ghost use Rattle.std.specs.Prelude.{All};
ghost use Rattle.ledger_terms.specs.Names.{IsName};
ghost use Rattle.message_bytes.specs.InRange.{IsDecision, IsLocalVerdict, IsParticipant, IsPath, IsPlace, IsResponse, IsStep, IsVerdict, IsViewVerdict};
ghost use Rattle.message_bytes.specs.Reading.{MOST_OF_BYTE};
ghost use Rattle.message_bytes.specs.Spellable.{IsSpellableDecision, IsSpellablePath, IsSpellableResponse, IsSpellableVerdict, IsSpellableViewVerdict};
ghost use Rattle.wire_form.specs.InRange.{IsHash};
ghost use Rattle.snapshot_store.specs.InRange.{ArePaths, IsItem, IsRow, IsState, IsWhat};
ghost use Rattle.snapshot_store.specs.Spellable.{AreSpellablePaths, IsSpellableItem, IsSpellableRow, IsSpellableState, IsSpellableWhat};

use canton_model::{Decision, LocalVerdict, Response, Verdict, ViewVerdict};
use ledger_terms::{ActiveRow, Hash, Name, ParticipantId, Path, PathList};
use node_state::{Item, ItemWhat, NodeState};
use wire_form::is_spellable_instance;

fn keeps_place(place: u64)
    ensures { IsPlace place }
{}

fn keeps_places(places: &[u64])
    ensures { All IsPlace places.now }
{
    for place in places {
        keeps_place(*place);
    }
}

fn keeps_participant(participant: ParticipantId)
    ensures { IsParticipant MOST_OF_BYTE participant }
{
    let _number = participant.0;
}

fn keeps_participants(participants: &[ParticipantId])
    ensures { All (IsParticipant MOST_OF_BYTE) participants.now }
{
    for participant in participants {
        keeps_participant(*participant);
    }
}

fn keeps_name(name: &Name)
    ensures { IsName name.now }
{
    let _bytes = name.as_bytes();
}

fn keeps_hash(hash: &Hash)
    ensures { IsHash hash.now }
{
    let _bytes = hash.as_bytes();
}

fn keeps_hashes(hashes: &[Hash])
    ensures { All IsHash hashes.now }
{
    for hash in hashes {
        keeps_hash(hash);
    }
}

fn keeps_step(step: u16)
    ensures { IsStep step }
{}

fn keeps_steps(steps: &[u16])
    ensures { All IsStep steps.now }
{
    for step in steps {
        keeps_step(*step);
    }
}

fn keeps_path(path: &Path)
    ensures { IsSpellablePath path.now → IsPath path.now }
{
    keeps_steps(path.as_slice());
}

fn keep_paths(paths: &[Path])
    ensures { All (λ path. IsSpellablePath path → IsPath path) paths.now }
{
    for path in paths {
        keeps_path(path);
    }
}

fn keeps_paths(paths: &PathList)
    ensures { AreSpellablePaths paths.now → ArePaths paths.now }
{
    keep_paths(paths.as_slice());
}

fn keeps_local(verdict: LocalVerdict)
    ensures { IsLocalVerdict verdict }
{
    match verdict {
        LocalVerdict::Approve => {}
        LocalVerdict::Reject { action, .. } => keeps_step(action),
    }
}

fn keeps_view_verdict(verdict: &ViewVerdict)
    ensures { IsSpellableViewVerdict verdict.now → IsViewVerdict verdict.now }
{
    keeps_path(&verdict.view);
    keeps_local(verdict.verdict);
}

fn keeps_view_verdicts(verdicts: &[ViewVerdict])
    ensures { All (λ verdict. IsSpellableViewVerdict verdict → IsViewVerdict verdict) verdicts.now }
{
    for verdict in verdicts {
        keeps_view_verdict(verdict);
    }
}

fn keeps_response(response: &Response)
    ensures { IsSpellableResponse response.now → IsResponse MOST_OF_BYTE response.now }
{
    keeps_participant(response.from);
    keeps_place(response.request);
    keeps_view_verdicts(response.verdicts.as_slice());
}

fn keeps_responses(responses: &[Response])
    ensures { All (λ response. IsSpellableResponse response → IsResponse MOST_OF_BYTE response) responses.now }
{
    for response in responses {
        keeps_response(response);
    }
}

fn keeps_decision(decision: &Decision)
    ensures { IsSpellableDecision decision.now → IsDecision MOST_OF_BYTE decision.now }
{
    match decision {
        Decision::Approved => {}
        Decision::Rejected { from, view, .. } => {
            keeps_participant(*from);
            keeps_path(view);
        }
        Decision::TimedOut { missing } => keeps_participants(missing.as_slice()),
    }
}

fn keeps_verdict(verdict: &Verdict)
    ensures { IsSpellableVerdict verdict.now → IsVerdict MOST_OF_BYTE verdict.now }
{
    keeps_place(verdict.request);
    keeps_decision(&verdict.decision);
}

fn keeps_what(what: &ItemWhat)
    ensures { IsSpellableWhat what.now → IsWhat what.now }
{
    match what {
        ItemWhat::Nothing => {}
        ItemWhat::Request {
            sender,
            command,
            root,
            seen,
            confirmed,
            ..
        } => {
            keeps_participant(*sender);
            keeps_name(command);
            keeps_hash(root);
            keeps_paths(seen);
            keeps_paths(confirmed);
        }
        ItemWhat::Verdict(verdict) => keeps_verdict(verdict),
    }
}

fn keeps_item(item: &Item)
    ensures { IsSpellableItem item.now → IsItem item.now }
{
    keeps_place(item.time);
    keeps_what(&item.what);
}

fn keeps_items(items: &[Item])
    ensures { All (λ item. IsSpellableItem item → IsItem item) items.now }
{
    for item in items {
        keeps_item(item);
    }
}

fn keeps_row(row: &ActiveRow)
    ensures { IsSpellableRow row.now → IsRow row.now }
{
    keeps_place(row.created_at);
    keeps_hash(&row.known.salt);
    let _fits = is_spellable_instance(&row.known.instance);
}

fn keeps_rows(rows: &[ActiveRow])
    ensures { All (λ row. IsSpellableRow row → IsRow row) rows.now }
{
    for row in rows {
        keeps_row(row);
    }
}

/// Shows that a state that has a spelling is in range, since its types keep the rest. It answers nothing.
pub(crate) fn keeps_state(state: &NodeState)
    ensures { IsSpellableState state.now → IsState state.now }
{
    keeps_participant(state.me);
    keeps_place(state.base);
    keeps_place(state.base_time);
    keeps_rows(state.active.as_slice());
    keeps_hashes(state.gone.as_slice());
    keeps_items(state.items.as_slice());
    keeps_responses(state.outbox.as_slice());
    keeps_places(state.done.as_slice());
}

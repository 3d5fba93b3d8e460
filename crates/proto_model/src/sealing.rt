//! From views to a request.
ghost use Rattle.std.specs.Prelude.{◌≡◌, ◌≢◌, ◌≤◌, ◌<◌, ℕ, true, All, List, Ok, IfOk, length, map};
ghost use Rattle.ledger_terms.specs.Forest.{NoRoots};
ghost use Rattle.ledger_terms.specs.Topologies.{IsValid};
ghost use Rattle.ledger_terms.specs.declared.tx.Tx.{Tx};
ghost use Rattle.lang_eval.specs.Found.{Packages};
ghost use Rattle.view_split.specs.Faults.{views_of_tx};
ghost use Rattle.blind_tree.specs.Blind.{is_host_named};
ghost use Rattle.blind_tree.specs.Kept.{cut_tree};
ghost use Rattle.blind_tree.specs.LeafBytes.{AreSpellable};
ghost use Rattle.blind_tree.specs.Limits.{KeepLimits};
ghost use Rattle.blind_tree.specs.Spelling.{spell_tree};
ghost use Rattle.framed_form.specs.Framed.{AreBytes, is_framed};
ghost use Rattle.sealed_form.specs.SealedForm.{CanBeSealed};
ghost use Rattle.sealed_form.specs.Submission.{whole_with_seed};
ghost use Rattle.sealed_form.specs.Within.{participants_of};
ghost use Rattle.proto_model.specs.Made.{HasBytes, SendsBytes, envelope_cut, request_by, request_of_tx};
ghost use Rattle.proto_model.specs.SealedRequests.{IsSealedOf};

use crate::participants::{all_participants, confirming, recipients};
use blind_tree::{KeptTree, Recipient, keep_tree, spelled_for};
use canton_model::{Envelope, EnvelopeList, Request, SharedBytes};
use ledger_terms::{Name, ParticipantId, ParticipantIdList, Topology};
use std::alloc::{AllocError, Global};
use view_split::Views;

/// The request that the sender makes of a transaction which is split into these views (Canton protocol: confirmation request). The sender and every
/// participant that sees a view get an envelope, in the order of the topology, and who confirms for a confirmer of a view is asked to confirm. All
/// trees are spelled from one, whose leaves and views are hashed once each.
pub fn seal(
    alloc: Global,
    topology: &Topology,
    sender: ParticipantId,
    command: Name,
    views: &Views,
) -> Result<Request, AllocError>
    requires spellable { AreSpellable views.now }
    requires sender { sender < length topology.now.hosts }
    ensures made { IfOk result (λ request. (packages : Packages) (tx : Tx) (name : List ℕ)
        → IsValid topology.now
        → views_of_tx packages tx ≡ Ok views.now
        → is_host_named topology.now.hosts sender name ≡ true
        → request ≡ request_of_tx topology.now packages sender name command tx) }
    ensures sealed { IfOk result (λ request. (packages : Packages) (tx : Tx) (name : List ℕ)
        → IsValid topology.now
        → views_of_tx packages tx ≡ Ok views.now
        → CanBeSealed topology.now packages sender (whole_with_seed name tx)
        → KeepLimits tx.roots
        → IsSealedOf topology.now packages name tx request) }
    ensures framed { IfOk result (λ request. (packages : Packages) (tx : Tx) (name : List ℕ)
        → IsValid topology.now
        → views_of_tx packages tx ≡ Ok views.now
        → CanBeSealed topology.now packages sender (whole_with_seed name tx)
        → KeepLimits tx.roots
        → tx.roots ≢ NoRoots
        → is_framed topology.now request ≡ true) }
{
    let host = &topology.hosts.as_slice()[sender.0 as usize];
    let request = seal_as(alloc, topology, sender, host.name, command, views)?;
    Ok(request)
}

// The request of these views, where the sender has this name.
fn seal_as(
    alloc: Global,
    topology: &Topology,
    sender: ParticipantId,
    name: Name,
    command: Name,
    views: &Views,
) -> Result<Request, AllocError>
    requires { AreSpellable views.now }
    ensures made { IfOk result (λ request. length topology.now.hosts ≤ 256
        → request ≡ request_by topology.now (participants_of topology.now) sender name command views.now) }
    ensures bytes { IfOk result (λ request. SendsBytes request) }
{
    let all = all_participants(alloc, topology)?;
    let confirming = confirming(alloc, topology, &all, &views.roots)?;
    let reached = recipients(alloc, topology, &all, &views.roots, sender)?;
    let kept = keep_tree(alloc, views, name)?;
    let envelopes = envelopes_for(alloc, topology, name, &kept, &reached)?;
    let mediator = spelled(alloc, topology, name, &kept, Recipient::Mediator)?;
    Ok(Request {
        sender,
        command,
        confirming,
        mediator,
        envelopes,
    })
}

// The envelopes of participants, each with the spelling of its tree.
fn envelopes_for(
    alloc: Global,
    topology: &Topology,
    name: Name,
    kept: &KeptTree,
    participants: &ParticipantIdList,
) -> Result<EnvelopeList, AllocError>
    ensures cut { IfOk result (λ envelopes. envelopes ≡ map (envelope_cut kept.now name topology.now.hosts) participants.now) }
    ensures bytes { IfOk result (λ envelopes. All HasBytes envelopes) }
{
    let mut envelopes = EnvelopeList::with_room(alloc, participants.len())?;
    for p in participants.as_slice() {
        let to = *p;
        let bytes = spelled(alloc, topology, name, kept, Recipient::Participant(to))?;
        envelopes.push(Envelope { to, bytes })?;
    }
    Ok(envelopes)
}

// The spelling of a recipient's tree, which all copies of the request share.
fn spelled(
    alloc: Global,
    topology: &Topology,
    name: Name,
    kept: &KeptTree,
    to: Recipient,
) -> Result<SharedBytes, AllocError>
    ensures cut { IfOk result (λ bytes. bytes ≡ spell_tree (cut_tree kept.now name topology.now.hosts to)) }
    ensures bytes { IfOk result (λ bytes. AreBytes bytes) }
{
    let bytes = spelled_for(alloc, kept, name, topology, to)?;
    keep_bytes(bytes.as_slice());
    SharedBytes::new(alloc, bytes)
}

// The prover learns from this call what the type keeps.
fn keep_bytes(bytes: &[u8])
    ensures { AreBytes bytes.now }
{}

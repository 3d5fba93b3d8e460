//! The participants of a topology, and those of them that a request concerns.
ghost use Rattle.std.specs.Prelude.{◌≡◌, ◌≤◌, IfOk, filter, length};
ghost use Rattle.ledger_terms.specs.Hosting.{confirms_at};
ghost use Rattle.blind_tree.specs.Recipients.{is_recipient};
ghost use Rattle.sealed_form.specs.SealedForm.{confirming_by};
ghost use Rattle.sealed_form.specs.Within.{participants_of};
ghost use Rattle.proto_model.specs.Made.{confirms_any_view};

use blind_tree::sees_any_view;
use ledger_terms::{ParticipantId, ParticipantIdList, Topology};
use std::alloc::{AllocError, Global};
use view_split::ViewList;

/// All participants, in order. An index has one byte.
pub(crate) fn all_participants(
    alloc: Global,
    topology: &Topology,
) -> Result<ParticipantIdList, AllocError>
    ensures { IfOk result (λ ps. length topology.now.hosts ≤ 256 → ps ≡ participants_of topology.now) }
{
    let mut all = ParticipantIdList::with_room(alloc, topology.hosts.len())?;
    for at in 0..topology.hosts.len() {
        all.push(ParticipantId((at % 256) as u8))?;
    }
    Ok(all)
}

/// Those of the participants that confirm for a confirmer of some view, in order: who is asked to confirm.
pub(crate) fn confirming(
    alloc: Global,
    topology: &Topology,
    participants: &ParticipantIdList,
    views: &ViewList,
) -> Result<ParticipantIdList, AllocError>
    ensures { IfOk result (λ ps. ps ≡ confirming_by (confirms_at topology.now.hosts) participants.now views.now) }
{
    let mut asked = ParticipantIdList::with_room(alloc, participants.len())?;
    for p in participants.as_slice() {
        if confirms_any_view(topology, *p, views) {
            asked.push(*p)?;
        }
    }
    Ok(asked)
}

fn confirms_any_view(topology: &Topology, at: ParticipantId, views: &ViewList) -> bool
    ensures { result ≡ confirms_any_view (confirms_at topology.now.hosts at) views.now }
{
    for view in views.as_slice() {
        let confirmers = &view.root.confirmers;
        if topology.confirms_any(at, confirmers) || confirms_any_view(topology, at, &view.below) {
            return true;
        }
    }
    false
}

/// Those of the participants that get an envelope, in order: the sender, and who sees a view.
pub(crate) fn recipients(
    alloc: Global,
    topology: &Topology,
    participants: &ParticipantIdList,
    views: &ViewList,
    sender: ParticipantId,
) -> Result<ParticipantIdList, AllocError>
    ensures { IfOk result (λ ps. ps ≡ filter (is_recipient topology.now.hosts views.now sender) participants.now) }
{
    let mut reached = ParticipantIdList::with_room(alloc, participants.len())?;
    for p in participants.as_slice() {
        if *p == sender || sees_any_view(views, topology, *p) {
            reached.push(*p)?;
        }
    }
    Ok(reached)
}

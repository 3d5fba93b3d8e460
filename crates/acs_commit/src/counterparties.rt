//! The contracts in which another participant has a part.
ghost use Rattle.std.specs.Prelude.{◌≡◌, ◌++◌, ◌∷◌, [], IfOk, OnOk};
ghost use Rattle.ledger_terms.specs.Parties.{set_of};
ghost use Rattle.canton_model.specs.Inbox.{is_stakeholder_hosted};
ghost use Rattle.framed_form.specs.FramedReading.{framed_reading};
ghost use Rattle.acs_commit.specs.Shared.{shared_ids};

use crate::commit_tree::CommitTree;
use lang_eval::{Checked, EvalFault, has_kinds, parties_of_contract};
use ledger_terms::{ActiveRow, ActiveRowList, HashList, Instance, ParticipantId, Topology};
use std::alloc::{AllocError, Global};

// Whether the participant hosts a stakeholder of a contract, to confirm for it or only to observe. Where signatories or observers
// have no value, nobody is one.
fn has_hosted_stakeholder(
    alloc: Global,
    topology: &Topology,
    checked: &Checked,
    with: ParticipantId,
    instance: &Instance,
) -> Result<bool, AllocError>
    ensures { IfOk result (λ b. b ≡ is_stakeholder_hosted (framed_reading topology.now checked.now) with instance.now) }
{
    if !has_kinds(checked, instance) {
        return Ok(false);
    }
    match parties_of_contract(alloc, checked, instance) {
        Ok(parties) => Ok(
            topology.hosts_any(with, &parties.signatories)
                || topology.hosts_any(with, &parties.observers),
        ),
        Err(EvalFault::Memory) => Err(AllocError),
        Err(_) => Ok(false),
    }
}

fn push_if_shared(
    alloc: Global,
    topology: &Topology,
    checked: &Checked,
    with: ParticipantId,
    row: &ActiveRow,
    ids: &mut HashList,
) -> Result<(), AllocError>
    ensures { OnOk result (ids.new ≡ ids.old ++ shared_ids (framed_reading topology.now checked.now) with (row.now ∷ [])) }
{
    if has_hosted_stakeholder(alloc, topology, checked, with, &row.known.instance)? {
        ids.push(row.known.id)?;
    }
    Ok(())
}

/// The ids of the contracts in `rows` of which the participant `with` hosts a stakeholder, to confirm for it or only to observe, in the order of the
/// rows. Err is want of memory.
pub fn shared_ids(
    alloc: Global,
    topology: &Topology,
    checked: &Checked,
    rows: &ActiveRowList,
    with: ParticipantId,
) -> Result<HashList, AllocError>
    ensures { IfOk result (λ ids. ids ≡ shared_ids (framed_reading topology.now checked.now) with rows.now) }
{
    let mut ids = HashList::new(alloc);
    for row in rows.as_slice() {
        push_if_shared(alloc, topology, checked, with, row, &mut ids)?;
    }
    Ok(ids)
}

/// The tree over the ids of the contracts in `rows` of which the participant `with` hosts a stakeholder; its root is a commitment to them. Err is
/// want of memory.
pub fn shared(
    alloc: Global,
    topology: &Topology,
    checked: &Checked,
    rows: &ActiveRowList,
    with: ParticipantId,
) -> Result<CommitTree, AllocError>
    ensures { IfOk result (λ tree. tree ≡ set_of (shared_ids (framed_reading topology.now checked.now) with rows.now)) }
{
    let ids = shared_ids(alloc, topology, checked, rows, with)?;
    CommitTree::of(alloc, &ids)
}

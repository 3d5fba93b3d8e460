//! Spelling a recipient's tree straight from a transaction's tree with every hash, so that the recipient's own tree is never made.
ghost use Rattle.std.specs.Prelude.{◌≡◌, ◌++◌, OnOk, false};
ghost use Rattle.std.specs.Int.{w16, to_be_bytes};
ghost use Rattle.ledger_terms.specs.Grown.{tree_of};
ghost use Rattle.ledger_terms.specs.Hosting.{hosts_at};
ghost use Rattle.blind_tree.specs.Kept.{cut_views, cut_for_mediator, cut_leaf, cut_one, cut_tree};
ghost use Rattle.blind_tree.specs.Spelling.{spell_each, spell_leaf, spell_tree, spell_vertices};

use crate::cut::{is_seen, is_sender, sees_root};
use crate::kept_leaf::KeptLeaf;
use crate::kept_tree::KeptTree;
use crate::kept_view::{KeptList, KeptNode};
use crate::recipient::Recipient;
use crate::sight::hosts_any;
use ledger_terms::{Bytes, Name, ParticipantId, Topology};
use std::alloc::AllocError;
use wire_form::{encode_hash, encode_u32};

/// Puts the spelling of what a recipient gets of a transaction's tree at the end.
pub(crate) fn spell_for(
    kept: &KeptTree,
    sender: Name,
    topology: &Topology,
    to: Recipient,
    out: &mut Bytes,
) -> Result<(), AllocError>
    ensures { OnOk result (out.new ≡ out.old ++ spell_tree (cut_tree kept.now sender topology.now.hosts to)) }
{
    spell_leaf(&kept.common, true, out)?;
    match to {
        Recipient::Participant(at) => {
            let shows = sees_root(&kept.views, topology, at) || is_sender(topology, at, sender);
            spell_leaf(&kept.requesters, shows, out)?;
            spell_views(&kept.views, topology, at, false, out)
        }
        Recipient::Mediator => {
            spell_leaf(&kept.requesters, false, out)?;
            spell_informees(&kept.views, out)
        }
    }
}

// Puts a leaf's spelling at the end, plain or blind.
#[tactic(auto, using(crate::proofs::Spelled::four_bytes))]
fn spell_leaf(leaf: &KeptLeaf, shows: bool, out: &mut Bytes) -> Result<(), AllocError>
    ensures { OnOk result (out.new ≡ out.old ++ spell_leaf (cut_leaf shows leaf.now)) }
{
    if shows {
        out.push(1)?;
        encode_hash(&leaf.salt, out)?;
        encode_u32((leaf.bytes.len() % 4_294_967_296) as u32, out)?;
        out.extend(leaf.bytes.as_slice())
    } else {
        out.push(0)?;
        encode_hash(&leaf.hash, out)
    }
}

// Puts a count of views at the end.
#[tactic(auto, using(crate::proofs::Spelled::two_bytes))]
fn spell_count(count: usize, out: &mut Bytes) -> Result<(), AllocError>
    ensures { OnOk result (out.new ≡ out.old ++ to_be_bytes w16 count) }
{
    out.extend(&((count % 65536) as u16).to_be_bytes())
}

// Puts the spelling of what a participant gets of these views at the end, their count first. `above` says whether it sees a
// view above them.
#[cycle(views)]
fn spell_views(
    views: &KeptList,
    topology: &Topology,
    at: ParticipantId,
    above: bool,
    out: &mut Bytes,
) -> Result<(), AllocError>
    ensures { OnOk result (out.new ≡ out.old ++ spell_vertices (cut_views (hosts_at topology.now.hosts at) above views.now)) }
{
    spell_count(views.len(), out)?;
    for view in views.as_slice() {
        let sees = above || hosts_any(topology, at, &view.root.informees);
        spell_view(view, topology, at, sees, out)?;
    }
    Ok(())
}

#[cycle(views)]
fn spell_view(
    view: &KeptNode,
    topology: &Topology,
    at: ParticipantId,
    sees: bool,
    out: &mut Bytes,
) -> Result<(), AllocError>
    ensures { OnOk result (out.new ≡ out.old ++ spell_each (cut_one (hosts_at topology.now.hosts at) sees view.now.root view.now.below)) }
{
    if !sees && !is_seen(&view.below, topology, at) {
        out.push(0)?;
        return encode_hash(&view.root.hash, out);
    }
    out.push(1)?;
    spell_leaf(&view.root.informees_leaf, sees, out)?;
    spell_leaf(&view.root.contents_leaf, sees, out)?;
    spell_views(&view.below, topology, at, sees, out)
}

// The same of what the mediator gets.
#[cycle(informees)]
fn spell_informees(views: &KeptList, out: &mut Bytes) -> Result<(), AllocError>
    ensures { OnOk result (out.new ≡ out.old ++ spell_vertices (cut_for_mediator views.now)) }
{
    spell_count(views.len(), out)?;
    for view in views.as_slice() {
        spell_informees_of(view, out)?;
    }
    Ok(())
}

#[cycle(informees)]
fn spell_informees_of(view: &KeptNode, out: &mut Bytes) -> Result<(), AllocError>
    ensures { OnOk result (out.new ≡ out.old ++ spell_each (cut_for_mediator (tree_of view.now))) }
{
    out.push(1)?;
    spell_leaf(&view.root.informees_leaf, true, out)?;
    spell_leaf(&view.root.contents_leaf, false, out)?;
    spell_informees(&view.below, out)
}

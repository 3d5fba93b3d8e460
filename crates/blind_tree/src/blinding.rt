//! What each recipient of a request is shown.
ghost use Rattle.std.specs.Prelude.{◌≡◌, IfOk, map};
ghost use Rattle.sha2.specs.Sha256.{sha256};
ghost use Rattle.blind_tree.specs.LeafBytes.{AreSpellable};
ghost use Rattle.blind_tree.specs.Blind.{blind_for};
ghost use Rattle.blind_tree.specs.Kept.{cut_tree};
ghost use Rattle.blind_tree.specs.Spelling.{spell_tree};

use crate::cut::cut_for;
use crate::encode::USUAL_TREE;
use crate::keep::keep_tree;
use crate::kept_tree::KeptTree;
use crate::recipient::{Recipient, RecipientList};
use crate::spelled_cut::spell_for;
use crate::tree::{Tree, TreeList};
use ledger_terms::{Bytes, Exact, Name, Topology};
use std::alloc::{AllocError, Global};
use view_split::Views;

/// The tree of a transaction for the recipient `to` (Canton protocol: blinding), which the participant named `sender` submits. A participant is shown
/// the views of which it hosts an informee, with all below them, and the requesters where one is a root view or it is the sender; the mediator the
/// informees and confirmers of all views. All else is there as hashes, but for the common leaf. Err is want of memory.
pub fn blind(
    alloc: Global,
    views: &Views,
    sender: Name,
    topology: &Topology,
    to: Recipient,
) -> Result<Tree, AllocError>
    requires { AreSpellable views.now }
    ensures { IfOk result (λ tree. tree ≡ blind_for sha256 views.now sender topology.now.hosts to) }
{
    let kept = keep_tree(alloc, views, sender)?;
    cut_for(alloc, &kept, sender, topology, to)
}

/// The trees of a transaction for several recipients, in their order. Each leaf is spelled and hashed once for all of them, and each view hashed
/// once. `sender` is the name of the participant that submits the transaction. Err is want of memory.
pub fn blind_all(
    alloc: Global,
    views: &Views,
    sender: Name,
    topology: &Topology,
    to: &RecipientList,
) -> Result<TreeList, AllocError>
    requires { AreSpellable views.now }
    ensures { IfOk result (λ trees. trees ≡ map (blind_for sha256 views.now sender topology.now.hosts) to.now) }
{
    let kept = keep_tree(alloc, views, sender)?;
    let mut trees = TreeList::with_room(alloc, to.len())?;
    for recipient in to.as_slice() {
        trees.push(cut_for(alloc, &kept, sender, topology, *recipient)?)?;
    }
    Ok(trees)
}

/// The bytes of the tree that `blind` makes for the recipient `to`, spelled straight from the transaction's tree that is kept with every hash. `sender`
/// is the name with which that was kept. Err is want of memory.
pub fn spelled_for(
    alloc: Global,
    kept: &KeptTree,
    sender: Name,
    topology: &Topology,
    to: Recipient,
) -> Result<Bytes, AllocError>
    ensures { IfOk result (λ bytes. bytes ≡ spell_tree (cut_tree kept.now sender topology.now.hosts to)) }
{
    let mut out = Bytes::with_room(alloc, USUAL_TREE)?;
    spell_for(kept, sender, topology, to, &mut out)?;
    // what is kept has no room that is left over
    out.copied()
}

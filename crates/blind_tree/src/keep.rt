//! Making a transaction's tree with every hash.
ghost use Rattle.std.specs.Prelude.{◌≡◌, IfOk, OnOk};
ghost use Rattle.ledger_terms.specs.Forest.{join};
ghost use Rattle.sha2.specs.Sha256.{sha256};
ghost use Rattle.wire_form.specs.Spelling.{spell_parties};
ghost use Rattle.wire_form.specs.Spellable.{IsSpellableSet};
ghost use Rattle.ledger_terms.specs.Grown.{tree_of};
ghost use Rattle.blind_tree.specs.LeafBytes.{AreSpellable, AreSpellableViews, IsSpellableView, common_bytes, core_bytes, roles_bytes};
ghost use Rattle.blind_tree.specs.Kept.{kept_views, kept_digests, kept_leaf, kept_tree};

use crate::core_bytes::encode_core;
use crate::kept_leaf::KeptLeaf;
use crate::kept_tree::KeptTree;
use crate::kept_view::{KeptList, KeptNode, KeptView};
use hash_id::{leaf_hash, leaf_salt, view_hash};
use ledger_terms::{Bytes, Hash, Name, PartySet, Tree};
use std::alloc::{AllocError, Global};
use view_split::{SplitView, View, ViewList, Views};
use wire_form::{encode_name, encode_parties, encode_u64};

/// How many bytes are made room for at first: the core of a view of a few actions has no more.
const USUAL_CORE: usize = 512;

/// The same of the other leaves, which spell a few names.
const USUAL_LEAF: usize = 96;

/// The tree of a transaction with every hash, from which what each recipient gets is spelled or cut: each leaf is spelled and hashed once for all of
/// them, and each view hashed once. `sender` is the name of the participant that submits the transaction. Err is want of memory.
pub fn keep_tree(alloc: Global, views: &Views, sender: Name) -> Result<KeptTree, AllocError>
    requires { AreSpellable views.now }
    ensures { IfOk result (λ tree. tree ≡ kept_tree sha256 views.now sender) }
{
    let common = keep_leaf(
        1,
        &views.seed,
        spelled_head(alloc, sender, views.ledger_time)?,
    );
    let requesters = keep_leaf(2, &views.seed, spelled_set(alloc, &views.act_as)?);
    let mut roots = KeptList::new(alloc);
    keep_into(alloc, &views.roots, &mut roots)?;
    Ok(KeptTree {
        common,
        requesters,
        views: roots,
    })
}

// A leaf of a kind with its salt and its hash.
fn keep_leaf(kind: u8, seed: &Hash, bytes: Bytes) -> KeptLeaf
    ensures { result ≡ kept_leaf sha256 kind seed.now bytes }
{
    let salt = leaf_salt(kind, seed);
    let hash = leaf_hash(kind, &salt, bytes.as_slice());
    KeptLeaf { salt, bytes, hash }
}

fn spelled_head(alloc: Global, sender: Name, ledger_time: u64) -> Result<Bytes, AllocError>
    ensures { IfOk result (λ bytes. bytes ≡ common_bytes sender ledger_time) }
{
    let mut bytes = Bytes::with_room(alloc, USUAL_LEAF)?;
    encode_name(&sender, &mut bytes)?;
    encode_u64(ledger_time, &mut bytes)?;
    Ok(bytes)
}

fn spelled_set(alloc: Global, parties: &PartySet) -> Result<Bytes, AllocError>
    requires { IsSpellableSet parties.now }
    ensures { IfOk result (λ bytes. bytes ≡ spell_parties parties.now) }
{
    let mut bytes = Bytes::with_room(alloc, USUAL_LEAF)?;
    encode_parties(parties, &mut bytes)?;
    Ok(bytes)
}

fn spelled_roles(alloc: Global, view: &SplitView) -> Result<Bytes, AllocError>
    requires { IsSpellableView view.now }
    ensures { IfOk result (λ bytes. bytes ≡ roles_bytes view.now) }
{
    let mut bytes = Bytes::with_room(alloc, USUAL_LEAF)?;
    encode_parties(&view.informees, &mut bytes)?;
    encode_parties(&view.confirmers, &mut bytes)?;
    Ok(bytes)
}

fn spelled_core(alloc: Global, view: &SplitView) -> Result<Bytes, AllocError>
    requires { IsSpellableView view.now }
    ensures { IfOk result (λ bytes. bytes ≡ core_bytes view.now) }
{
    let mut bytes = Bytes::with_room(alloc, USUAL_CORE)?;
    let SplitView { first, below, .. } = view;
    encode_core(&first.seed, &first.action, below, &mut bytes)?;
    Ok(bytes)
}

// Puts views with their hashes at the end.
#[cycle(keep)]
fn keep_into(alloc: Global, views: &ViewList, out: &mut KeptList) -> Result<(), AllocError>
    requires { AreSpellableViews views.now }
    ensures { OnOk result (out.new ≡ join out.old (kept_views sha256 views.now)) }
{
    for view in views.as_slice() {
        let kept = keep_view(alloc, view)?;
        out.push(kept)?;
    }
    Ok(())
}

#[cycle(keep)]
fn keep_view(alloc: Global, view: &View) -> Result<KeptNode, AllocError>
    requires { AreSpellableViews (tree_of view.now) }
    ensures { IfOk result (λ one. tree_of one ≡ kept_views sha256 (tree_of view.now)) }
{
    let mut subviews = KeptList::new(alloc);
    keep_into(alloc, &view.below, &mut subviews)?;
    let below = hashes_of(alloc, &subviews)?;
    let seed = &view.root.first.seed;
    let informees_leaf = keep_leaf(3, seed, spelled_roles(alloc, &view.root)?);
    let contents_leaf = keep_leaf(4, seed, spelled_core(alloc, &view.root)?);
    let hash = view_hash(&informees_leaf.hash, &contents_leaf.hash, below.as_slice());
    let root = KeptView {
        informees: view.root.informees.clone()?,
        informees_leaf,
        contents_leaf,
        hash,
    };
    Ok(Tree {
        root,
        below: subviews,
    })
}

// The hashes of views side by side.
fn hashes_of(alloc: Global, views: &KeptList) -> Result<Vec<Hash>, AllocError>
    ensures { IfOk result (λ hashes. hashes.items ≡ kept_digests views.now) }
{
    let mut hashes = Vec::new(alloc);
    for view in views.as_slice() {
        hashes.push(view.root.hash)?;
    }
    Ok(hashes)
}
